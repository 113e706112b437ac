/// The words of one of a ring's cells: the first word, in its two parts, and the second.
#[derive(Clone, Copy, PartialEq, Eq, Debug)]
pub struct RingCell {
    /// The first word's quotient by 1,024: one more than the place that was published here last, 0 before any.
    pub stamp: u64,
    /// The first word's rest by 1,024: the header of that place's event.
    pub header: u64,
    /// The second word: the value of the event that was filled in here last.
    pub value: u64,
}
