ghost use Rattle.std.specs.Prelude.{◌≡◌};
ghost use Rattle.tmw_ring_defs.specs.declared.ring_fault.RingFault.TheVariants.{Memory};

use std::alloc::{AllocError, AllocFailed};
use thiserror::Error;

/// Why a ring could not be made. The numbers of its writers and its cells are tested before its limit.
#[derive(Clone, Copy, PartialEq, Eq, Debug, Error)]
pub enum RingFault {
    /// There are not 1 to 8 writers, or fewer cells than writers, or more than 4,096 cells.
    #[error("a ring has 1 to 8 writers, and from as many cells to 4,096")]
    BadSize,
    /// The limit is below the number of writers, or above 2^40.
    #[error("a ring gives from as many places as it has writers to 2^40")]
    BadLimit,
    /// An allocation failed.
    #[error("out of memory")]
    Memory,
}

impl From<AllocError> for RingFault {
    ghost from_gives = { λ _ fault. fault ≡ Memory };

    fn from(_refused: AllocError) -> RingFault {
        RingFault::Memory
    }
}

impl<T: Drop> From<AllocFailed<T>> for RingFault {
    ghost from_gives = { λ _ fault. fault ≡ Memory };

    fn from(_refused: AllocFailed<T>) -> RingFault {
        RingFault::Memory
    }
}
