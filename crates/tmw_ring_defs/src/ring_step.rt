use tmw_events::{Event, Ix, Kind};

/// One step of a ring's writer, which it names, or of its reader. All but the last are one load, one store or one
/// addition to one of the ring's words.
#[derive(Clone, Copy, PartialEq, Eq, Debug)]
pub enum Step {
    /// The writer, which has an event of this kind to record, loads front.
    Front(Ix, Kind),
    /// The writer loads tail, and sees whether there is room.
    Tail(Ix),
    /// The writer adds 1 to tail. What tail was is its place.
    Claim(Ix),
    /// The writer stores its event's value in the place's cell.
    Fill(Ix),
    /// The writer stores the place's stamp, with its event's header, in the place's cell.
    Publish(Ix),
    /// The reader loads the next place's stamp and header.
    Peek,
    /// The reader loads the next place's value.
    Read,
    /// The reader stores the next front. It has taken the event.
    Free,
    /// The writer stops forever, however far it has come.
    Stop(Ix),
}

/// How a step is answered.
#[derive(Clone, Copy, PartialEq, Eq, Debug)]
pub enum Reply {
    /// Front, which was seen.
    Saw(u64),
    /// There is room.
    Cleared,
    /// There is no room between this front and this tail.
    Full { front: u64, tail: u64 },
    /// So many places were claimed, and no more are given.
    Spent { tail: u64 },
    /// The place that was claimed.
    Place(u64),
    /// The value was stored.
    Filled,
    /// The place that was published.
    Published(u64),
    /// The next place is published.
    Ready,
    /// The next place is not published.
    NotReady,
    /// The value that was loaded.
    Word(u64),
    /// The event that was taken.
    Taken(Event),
    /// The writer has stopped.
    Stopped,
    /// The step is not its actor's next, or the ring has no such writer. Nothing has changed.
    NotNow,
}

/// A step that was made, and how it was answered.
#[derive(Clone, Copy, PartialEq, Eq, Debug)]
pub struct Answered {
    pub step: Step,
    pub reply: Reply,
}
