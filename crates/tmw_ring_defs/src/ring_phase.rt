use tmw_events::Kind;

/// How far a writer has come in recording an event.
#[derive(Clone, Copy, PartialEq, Eq, Debug)]
pub enum WriterPhase {
    /// It records nothing.
    Idle,
    /// It has an event of this kind to record, and has looked at front.
    Looked {
        kind: Kind,
        front: u64,
    },
    /// There is room for its event, of this kind.
    Cleared {
        kind: Kind,
    },
    /// It has claimed this place for its event, of this kind, and has filled in the value or not.
    Claimed {
        place: u64,
        kind: Kind,
        filled: bool,
    },
}

/// How far the reader has come in taking an event.
#[derive(Clone, Copy, PartialEq, Eq, Debug)]
pub enum ReaderPhase {
    /// It takes nothing.
    Waiting,
    /// The next place is published, and its event has this header.
    Ready { header: u64 },
    /// The next place's event has this header and this value.
    Told { header: u64, value: u64 },
}
