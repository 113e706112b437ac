//! A transaction that a C program carries out, and how far.

/// A call of a transaction.
#[repr(C)]
#[derive(Clone, Copy, PartialEq, Eq, Debug)]
pub struct Call {
    /// The letter of its kind, as a trace has it.
    pub letter: u32,
    /// The register, where the kind has one.
    pub register: u64,
    /// The value that is written or added, where the kind has one.
    pub value: u64,
}

/// How far a transaction is carried out. All bytes 0, nothing of it is recorded.
#[repr(C)]
#[derive(Clone, Copy, PartialEq, Eq, Debug)]
pub struct CTurn {
    /// The place of the call among the transaction's calls.
    pub place: usize,
    /// 0 the call is due, 1 it is recorded and waits for its answer, from 2 on the transaction is over. No `enum`, since
    /// C may pass any number.
    pub phase: u32,
}
