use thiserror::Error;

/// A read or a write that failed. Of its cause nothing is kept.
#[derive(Clone, Copy, PartialEq, Eq, Debug, Error)]
#[error("reading or writing failed")]
pub struct IoFault;
