use crate::ending::Ending;
use tmw_defs::Verdict;
use tmw_events::Event;

/// What the scripts of a workload have made of a memory.
#[derive(Debug, Drop)]
pub struct Outcome {
    /// All that was called and answered, in order.
    pub log: Vec<Event>,
    /// The verdict on the log.
    pub verdict: Verdict,
    /// For each script, by its thread's number, how far it has come.
    pub ends: Vec<Ending>,
}
