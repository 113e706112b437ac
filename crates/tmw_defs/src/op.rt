use tmw_events::Ix;

/// An operation that a transaction made on a register and that was answered. Values are 64 bits.
#[derive(Clone, Copy, PartialEq, Eq, Debug)]
pub enum Op {
    /// A read of the register, and the value that it was answered.
    Read(Ix, u64),
    /// A write of the value to the register.
    Write(Ix, u64),
    /// An add to the register: the value added, modulo 2^64, and the value that the register had, which it was answered.
    Add(Ix, u64, u64),
}
