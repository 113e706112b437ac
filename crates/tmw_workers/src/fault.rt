use thiserror::Error;
use tmw_ring::RingFault;

/// Why no run was judged to its end. All threads that were started have ended.
#[derive(Clone, Copy, PartialEq, Eq, Debug, Error)]
pub enum BenchFault {
    /// The workload has more registers than the memory. No transaction was begun.
    #[error("the workload has more registers than the memory")]
    Registers,
    /// There is no ring with these numbers of cells and of places, and a writer for each script. No transaction was begun.
    #[error("{0}")]
    Ring(RingFault),
    /// An allocation failed.
    #[error("out of memory")]
    Memory,
    /// A thread could not be started.
    #[error("no more threads can be started")]
    Spawn,
}
