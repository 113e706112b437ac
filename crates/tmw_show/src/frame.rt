/// What stands around a sentence of a reason.
#[derive(Clone, Copy)]
pub enum Frame {
    /// A line of its own.
    Line,
    /// A semicolon and a space behind it.
    Clause,
}
