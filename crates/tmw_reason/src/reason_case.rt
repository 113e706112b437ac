use crate::reason_step::{Contradiction, ReasonStep};

/// Steps that come to a contradiction. Each follows from those before it, but for the first, which may be assumed. None can
/// be left out.
#[derive(Drop)]
pub struct Derivation {
    /// How many of the first steps are assumed: 1 where a value may come from several sources and this is one of the cases,
    /// and else 0.
    pub assumed: usize,
    pub steps: Vec<ReasonStep>,
    /// What the steps come to.
    pub end: Contradiction,
}

/// Why no serial order begins in some of the states, one at least.
#[derive(Drop)]
pub struct ReasonCase {
    /// The places of these states among all, from 0.
    pub states: Vec<usize>,
    /// One that assumes nothing, or one for each source that a value may have.
    pub derivations: Vec<Derivation>,
}

/// Why no serial order explains the transactions of a window: a case for each of the states before it, or for some of them
/// together. None is said twice of a state.
#[derive(Drop)]
pub struct Reason {
    pub cases: Vec<ReasonCase>,
}
