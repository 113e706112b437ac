ghost use Rattle.std.specs.Prelude.{◌≡◌};
ghost use Rattle.tmw_drive.specs.declared.fault.DriveFault.TheVariants.{Memory};

use std::alloc::AllocError;
use thiserror::Error;

/// Why a workload was not driven, or not to its end.
#[derive(Clone, Copy, PartialEq, Eq, Debug, Error)]
pub enum DriveFault {
    /// The workload has more registers than the memory. No call was made.
    #[error("the workload has more registers than the memory")]
    Registers,
    /// An allocation failed.
    #[error("out of memory")]
    Memory,
}

impl From<AllocError> for DriveFault {
    ghost from_gives = { λ _ fault. fault ≡ Memory };

    fn from(_refused: AllocError) -> DriveFault {
        DriveFault::Memory
    }
}
