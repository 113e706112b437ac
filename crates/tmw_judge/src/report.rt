use tmw_monitor::Verdict;

/// A verdict on a recorded history of this many events.
#[derive(Clone, Copy, PartialEq, Eq, Debug)]
pub struct Report {
    pub events: u64,
    pub verdict: Verdict,
}
