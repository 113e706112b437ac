/// What the options of `drive` and of `bench` say of a run: what is written of it.
#[derive(Clone, Copy, PartialEq, Eq, Debug)]
pub struct RunOptions {
    /// Whether the run's trace comes before the report.
    pub trace: bool,
    /// Whether only the run's trace is written.
    pub trace_only: bool,
    /// Whether a line of counts comes behind all others.
    pub summary: bool,
}
