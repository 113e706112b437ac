/// The answer of a read or an add.
#[derive(Clone, Copy, PartialEq, Eq, Debug)]
pub enum Got {
    /// The value that the register had.
    Value(u64),
    /// The transaction has aborted.
    Abort,
}

/// The answer of any other call that has one.
#[derive(Clone, Copy, PartialEq, Eq, Debug)]
pub enum Did {
    /// The call was carried out.
    Done,
    /// The transaction has aborted.
    Abort,
}
