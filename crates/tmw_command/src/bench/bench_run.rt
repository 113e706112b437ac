use tmw_drive_command::DriveRun;

/// What threads have made of a workload, with the header under which their log is written.
#[derive(Debug, Drop)]
pub struct BenchRun {
    pub driven: DriveRun,
    /// How many rounds were begun.
    pub rounds: u64,
}
