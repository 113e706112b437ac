use crate::run_options::RunOptions;
use tmw_options::Settings;

/// What the options of `bench` say.
#[derive(Clone, Copy, PartialEq, Eq, Debug)]
pub struct BenchOptions {
    pub written: RunOptions,
    /// How threads record, how often they run the workload, and how the record is judged.
    pub settings: Settings,
    /// Whether the record's last window is shown.
    pub show: bool,
    /// Whether, if that is violated, a part is shown that is violated by itself. Then the window is shown.
    pub why: bool,
    /// Whether nobody is told how far the bench has come.
    pub quiet: bool,
}
