use crate::recorder::Recorder;
use crate::watch::Watch;
use std::fmt;
use std::fmt::{Formatter, Write};
use thiserror::Error;
use tmw_ring::Writer;

/// Why a watch was not closed, with all that it was to be closed with.
#[derive(Drop, Error)]
pub enum CloseError {
    /// The recorders are not all of the watch's, each once. They may stand in another order than before.
    #[error("the recorders are not all of the watch's, each once")]
    Missing {
        watch: Watch,
        recorders: Vec<Recorder>,
    },
    /// An allocation failed before anything was done. The recorders stand in the order of their numbers.
    #[error("an allocation failed before anything was done")]
    Memory {
        watch: Watch,
        recorders: Vec<Recorder>,
    },
    /// The ring has an owner beside the watch and all its recorders, which no call makes. What the recorders recorded
    /// by is given back.
    #[error("the ring has another owner")]
    Shared {
        watch: Watch,
        writers: Vec<Writer>,
    },
}

// Watches, recorders and writers have no `Debug`, so only the case's name is shown.
impl fmt::Debug for CloseError {
    fn fmt<W: Write>(&self, f: &mut Formatter<W>) -> Result<(), fmt::Error> {
        f.write_str(match self {
            CloseError::Missing { .. } => "Missing",
            CloseError::Memory { .. } => "Memory",
            CloseError::Shared { .. } => "Shared",
        })
    }
}
