use thiserror::Error;

/// Why there is no report, or no replies to a list of steps. A line's number counts from 1, and the header is line 1.
#[derive(Debug, Drop, Clone, Copy, PartialEq, Eq, Error)]
pub enum Fault {
    /// The first line is not the header of a trace, or of a list of steps.
    #[error("the first line is not the header that is wanted")]
    BadHeader,
    /// This line is not an event, or no step.
    #[error("line {0} is no event, or no step")]
    BadLine(u64),
    /// The input ends within this line.
    #[error("the input ends within line {0}")]
    Cut(u64),
    /// There are more events, or steps, than are counted.
    #[error("there are more events, or steps, than are counted")]
    TooLong,
    /// Memory was refused.
    #[error("memory was refused")]
    Memory,
    /// A read failed.
    #[error("a read failed")]
    Io,
    /// The input is not JSON.
    #[error("the input is not JSON")]
    Json,
    /// The input is JSON of another shape than is needed.
    #[error("the JSON has another shape than was asked for")]
    Shape,
    /// The number of registers is out of its range.
    #[error("the number of registers is out of its range")]
    Registers,
    /// No ring has the requested numbers of cells and of places, and a writer for each thread.
    #[error("there is no ring of this size for so many threads")]
    Ring,
    /// A thread could not be started.
    #[error("a thread could not be started")]
    Spawn,
    /// The size of a ring is out of its range.
    #[error("the size of a ring is out of its range")]
    Size,
    /// A limit of places is out of its range.
    #[error("a limit of places is out of its range")]
    Limit,
    /// The command line is none that the program knows.
    #[error("the command line is not known")]
    Usage,
}
