ghost use Rattle.std.specs.Prelude.{◌≡◌};
ghost use Rattle.tmw_lines.specs.declared.text_fault.TextFault.TheVariants.{Memory};

use std::alloc::{AllocError, AllocFailed};
use thiserror::Error;

/// Why a text of lines could not be read. Lines are counted from 1, and the header's line is the first.
#[derive(Clone, Copy, PartialEq, Eq, Debug, Error)]
pub enum TextFault {
    /// There is no byte at all, or the first line, with its line feed, is no header.
    #[error("the first line is no header")]
    BadHeader,
    /// This line, with its line feed, is no item of the text's format.
    #[error("line {0} is none that may stand there")]
    BadLine(u64),
    /// The last piece of the text, which would be this line, has no line feed, whatever it holds.
    #[error("line {0} has no line feed")]
    Cut(u64),
    /// An allocation failed.
    #[error("out of memory")]
    Memory,
    /// The source failed in the call.
    #[error("reading failed")]
    Io,
    /// Something follows the 2^40th item's line.
    #[error("there are more than 2^40 lines behind the first")]
    TooLong,
}

impl From<AllocError> for TextFault {
    ghost from_gives = { λ _ fault. fault ≡ Memory };

    fn from(_refused: AllocError) -> TextFault {
        TextFault::Memory
    }
}

impl<T: Drop> From<AllocFailed<T>> for TextFault {
    ghost from_gives = { λ _ fault. fault ≡ Memory };

    fn from(_refused: AllocFailed<T>) -> TextFault {
        TextFault::Memory
    }
}
