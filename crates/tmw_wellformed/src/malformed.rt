use thiserror::Error;

/// Why an event makes a well-formed history ill-formed. They are tested in this order.
#[derive(Debug, Drop, Clone, Copy, PartialEq, Eq, Error)]
pub enum Malformed {
    /// It is a call on a register that is not below the run's number of registers.
    #[error("a register that the run does not have")]
    Register,
    /// It is a call, and the thread has a pending call.
    #[error("a call while another call of the thread is pending")]
    Busy,
    /// It is an answer, and the thread has no pending call.
    #[error("an answer while no call of the thread is pending")]
    Idle,
    /// It is an answer of another kind than the thread's pending call takes.
    #[error("an answer that does not fit the pending call")]
    Mismatch,
}
