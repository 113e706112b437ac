/// What is said of a history. The number in a case is the length of the shortest prefix at which anything is wrong.
#[derive(Clone, Copy, PartialEq, Eq, Debug)]
pub enum Verdict {
    /// Each prefix, the history itself included, is final-state opaque (Guerraoui and Kapalka 2008, section 5).
    OpaqueSoFar,
    /// Each prefix, the history itself included, is final-state strict: what is said in place of it where strict serializability is
    /// the criterion.
    StrictSoFar,
    /// This prefix is not final-state opaque, or not final-state strict, as the criterion is.
    Violated(u64),
    /// At this prefix a bound was passed, so that no more is said.
    Undecided(u64, Why),
    /// This prefix is ill-formed.
    Malformed(u64),
}

/// Which bound was passed.
#[derive(Clone, Copy, PartialEq, Eq, Debug)]
pub enum Why {
    /// A window has more transactions than the bound allows.
    Transactions,
    /// At a cut there are more outcomes than the bound allows.
    States,
}
