use tmw_events::Ix;

/// Where a value comes from that a transaction read of a register. A transaction is given by its place among those of the window, from 0.
#[derive(Clone, Copy, PartialEq, Eq)]
pub struct ValueSource {
    pub reader: usize,
    pub register: Ix,
    pub value: u64,
    /// The transaction that left the value. If there is none, it stood there from the start.
    pub writer: Option<usize>,
}

/// What holds in each serial order of some transactions, and why.
#[derive(Clone, Copy)]
pub enum ReasonStep {
    /// The first stands before the second: it was completed before that began.
    RealTime(usize, usize),
    /// The value comes from there: nobody else can have left it, or this is assumed.
    From(ValueSource),
    /// The value, which may come from there, does not: the reader stands before that writer.
    TooLate(ValueSource),
    /// The value, which may come from there, does not: the rival, which leaves this value in the register, stands between.
    Overwritten(ValueSource, usize, u64),
    /// The reader stands before the rival, which leaves this other value in the register and stands after the source.
    ReadFirst(ValueSource, usize, u64),
    /// The rival stands before the source's writer: it leaves this other value in the register and stands before the reader.
    ChangedFirst(usize, u64, ValueSource),
    /// The first stands before the last: it stands before the one between, and that before the last.
    Through(usize, usize, usize),
}

/// What can be so in no serial order.
#[derive(Clone, Copy)]
pub enum Contradiction {
    /// The transaction at this place stands before itself.
    Cycle(usize),
    /// The reader read this value of the register, and nobody can have left it there.
    NoSource(usize, Ix, u64),
    /// By its own operations before, the reader had to find the first value in the register, and read the second. This is
    /// its first such answer of that register.
    Unlike(usize, Ix, u64, u64),
}
