use thiserror::Error;

/// Why a workload could not be read.
#[derive(Clone, Copy, PartialEq, Eq, Debug, Error)]
pub enum WorkloadFault {
    /// The bytes are no JSON text.
    #[error("the text is no JSON")]
    Json,
    /// The bytes are JSON, but the value is no workload's.
    #[error("the JSON is no workload")]
    Shape,
    /// An allocation failed.
    #[error("out of memory")]
    Memory,
}
