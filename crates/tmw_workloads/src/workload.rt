ghost use Rattle.tmw_workloads.specs.Shared.{scripts_of};
ghost use Rattle.std.specs.Prelude.{IsTrue};
ghost use Rattle.tmw_workloads.specs.Workload.{is_workload};

use tmw_events::{Kind, Registers};

/// What threads do with a transactional memory, and in which order their calls are made where one thread makes them all.
#[derive(Debug, Drop)]
pub struct Workload {
    /// How many registers the memory has to have.
    pub registers: Registers,
    /// For each thread, by its number, its transactions: 1 to 8 threads, at most 1,000 transactions each, of 1 to 64 calls.
    pub scripts: Vec<Vec<Vec<Kind>>>,
    /// Which thread makes its next call, entry by entry: at most 100,000 entries.
    pub order: Vec<u8>,
    pub ghost is: { IsTrue (is_workload registers.number (scripts_of scripts.items) order.items) },
}
