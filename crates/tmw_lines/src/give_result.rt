/// What came of giving a taker the item of the line that bytes begin with.
#[derive(Clone, Copy, PartialEq, Eq, Debug)]
pub enum GiveResult {
    /// No item was told in one pass, and none was given.
    Nothing,
    /// It was taken, and its line is so many bytes long.
    Taken(usize),
    /// The taker stopped at it. Its line is so many bytes long.
    Stopped(usize),
}
