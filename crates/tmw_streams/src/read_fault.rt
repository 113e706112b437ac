use thiserror::Error;

/// Why the bytes of a source could not be read.
#[derive(Clone, Copy, PartialEq, Eq, Debug, Error)]
pub enum ReadFault {
    /// A read failed.
    #[error("reading failed")]
    Io,
    /// An allocation failed.
    #[error("out of memory")]
    Memory,
}
