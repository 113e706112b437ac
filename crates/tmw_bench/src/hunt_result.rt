use tmw_counts::Summary;
use tmw_window::ShownWindow;
use tmw_workers::Ending;

/// What threads have made of the scripts of a workload, round after round, with no event kept but those of the last window.
#[derive(Debug, Drop)]
pub struct HuntResult {
    /// How many events the log has, the verdict on it, and its last window.
    pub showing: ShownWindow,
    /// What the log has shown: up to the verdict's event, or all of it if nothing is wrong.
    pub summary: Summary,
    /// For each script, by its thread's number, how far it has come in the last round.
    pub ends: Vec<Ending>,
    /// How many rounds were begun.
    pub rounds: u64,
}
