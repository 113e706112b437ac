use std::alloc::AllocError;
use thiserror::Error;

/// What the plain check finds of a well-formed history in which no prefix has more than eight transactions.
#[derive(Clone, Copy, PartialEq, Eq, Debug)]
pub enum Whole {
    /// Each prefix, the history itself included, is final-state opaque: what opacity asks.
    Opaque,
    /// Each prefix, the history itself included, is final-state strict: what strict serializability asks.
    Strict,
    /// The prefix of this length is the shortest that is not final-state opaque, or not final-state strict, as the criterion is.
    Violated(u64),
}

/// Why the plain check gives no verdict. The number is the length of the shortest prefix that is at fault.
#[derive(Debug, Drop, Clone, Copy, PartialEq, Eq, Error)]
pub enum WholeFault {
    #[error("the prefix of length {0} is ill-formed")]
    IllFormed(u64),
    #[error("the prefix of length {0} has a ninth transaction")]
    Ninth(u64),
    #[error("out of memory")]
    Memory,
}

impl From<AllocError> for WholeFault {
    ghost use Rattle.std.specs.Prelude.{◌≡◌};
    ghost use Rattle.tmw_plain_check.specs.declared.whole_verdict.WholeFault.TheVariants.{Memory};

    ghost from_gives = { λ _ fault. fault ≡ Memory };

    fn from(_error: AllocError) -> WholeFault {
        WholeFault::Memory
    }
}
