use tmw_defs::Verdict;

/// What a call to pump has done: how many events it has judged, and the verdict on all that were judged so far.
#[derive(Clone, Copy, PartialEq, Eq, Debug)]
pub struct Pumped {
    pub judged: u64,
    pub verdict: Verdict,
}
