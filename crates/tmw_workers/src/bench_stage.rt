use crate::orders::Orders;
use crate::signals::Signals;
use tmw_events::Kind;
use tmw_ring::Ring;

/// What the threads of one bench share, beside the memory.
#[derive(Clone, Copy)]
pub struct BenchStage<'a> {
    pub ring: &'a Ring,
    /// A script for each worker.
    pub scripts: &'a [Vec<Vec<Kind>>],
    /// How often in all a record is tried for which the ring lacks room.
    pub patience: u64,
    /// The most rounds that are begun.
    pub rounds: u64,
    pub signals: &'a Signals,
    pub orders: &'a Orders,
}
