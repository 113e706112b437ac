ghost use Rattle.std.specs.Prelude.{◌≡◌};
ghost use Rattle.tmw_c.specs.Statuses.{number_of};

/// How a call was answered.
#[derive(Clone, Copy, PartialEq, Eq, Debug)]
pub enum CallStatus {
    /// It has done what it does.
    Done,
    /// The handle is empty.
    NoHandle,
    /// A handle that is to be filled is full.
    FullHandle,
    /// The memory has not 1 to 8 registers.
    BadRegisters,
    /// A register that the memory does not have begins at another value than 0.
    BadStart,
    /// The window has not 1 to 8 transactions, or there are not 1 to 64 outcomes at a cut.
    BadBounds,
    /// The number of the cells or of the recorders is out of its range.
    BadSize,
    /// The limit of events is out of its range.
    BadLimit,
    /// An allocation failed.
    Memory,
    /// There was no room for an event of each recorder.
    Full,
    /// The watch records no more.
    Spent,
    /// There is no such kind of event.
    BadKind,
    /// The memory has no such register.
    BadRegister,
    /// The recorders are not all of the watch's, each at its number.
    Missing,
    /// The watch was being closed, and is not open any more.
    Closing,
    /// The turn is another: no call is due, or none waits for its answer.
    OutOfTurn,
    /// The event is no call, or none that a transaction makes at this turn.
    NotCall,
    /// The answer does not fit the call.
    Misfit,
}

impl CallStatus {
    /// Returns the status as a number, 0 to 17.
    pub const fn number(self) -> u32
        ensures { result ≡ number_of self }
    {
        match self {
            CallStatus::Done => 0,
            CallStatus::NoHandle => 1,
            CallStatus::FullHandle => 2,
            CallStatus::BadRegisters => 3,
            CallStatus::BadStart => 4,
            CallStatus::BadBounds => 5,
            CallStatus::BadSize => 6,
            CallStatus::BadLimit => 7,
            CallStatus::Memory => 8,
            CallStatus::Full => 9,
            CallStatus::Spent => 10,
            CallStatus::BadKind => 11,
            CallStatus::BadRegister => 12,
            CallStatus::Missing => 13,
            CallStatus::Closing => 14,
            CallStatus::OutOfTurn => 15,
            CallStatus::NotCall => 16,
            CallStatus::Misfit => 17,
        }
    }
}
