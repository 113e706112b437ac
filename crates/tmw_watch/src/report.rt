use tmw_defs::Verdict;

/// The verdict on a judged front, and how many events that front has.
#[derive(Clone, Copy, PartialEq, Eq, Debug)]
pub struct WatchReport {
    /// How many events were judged.
    pub events: u64,
    /// By the definition of opacity. A number in it is that of the events of a prefix.
    pub verdict: Verdict,
}
