ghost use Rattle.std.specs.Prelude.{◌≤◌};

use crate::bounds::Bounds;

/// How threads run a workload, and how what they record is judged.
#[derive(Clone, Copy, PartialEq, Eq, Debug)]
pub struct Settings {
    /// The ring's cells: from as many as the workload has scripts to 4,096.
    pub cells: u64,
    /// The most events that are recorded in all: from as many as the workload has scripts to 2^40.
    pub limit: u64,
    /// How often in all a record is tried for which the ring lacks room, before its thread stops. 0 counts as 1.
    pub patience: u64,
    /// The most runs of the workload: 1 to 1,000,000,000.
    pub rounds: u64,
    pub bounds: Bounds,
    pub ghost some_round: { 1 ≤ rounds },
    pub ghost few_rounds: { rounds ≤ 1000000000 },
}
