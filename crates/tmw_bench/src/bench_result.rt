use tmw_counts::Summary;
use tmw_workers::Outcome;

/// What threads have made of a memory.
#[derive(Debug, Drop)]
pub struct BenchResult {
    /// The log of all rounds, the verdict on it, and how each thread has ended.
    pub outcome: Outcome,
    /// What the log has shown: up to the verdict's event, or all of it if nothing is wrong.
    pub summary: Summary,
    /// How many rounds were begun.
    pub rounds: u64,
}
