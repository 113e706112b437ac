ghost use Rattle.std.specs.Prelude.{◌≡◌, ◌<◌, ◌≤◌, ℕ};
ghost use Rattle.tmw_tm.specs.Answers.{Call, Answer, got_answer, did_answer};
ghost use Rattle.tmw_tm.specs.Answers.Call.{Begin, Read, Write, Add, Commit};

use crate::answer::{Did, Got};
use crate::tx::Tx;
use std::ops::Drop;
use tmw_events::{Ix, Registers};

/// A transactional memory: registers of 64 bits, all 0 at first, which several threads may read and write in
/// transactions.
///
/// A thread begins a transaction by `begin` with a `Tx` of its own, calls `read`, `write` and `add` with it, and ends
/// it by `commit` or `abort`. An answer `Abort` of any call ends the transaction. Nothing is assumed of a memory but
/// that each call returns, with an answer that the memory gives: whether it is opaque is for a bench to find out.
pub trait Tm: Drop {
    /// The memory may answer this call so, at any time.
    ghost gives: { Self → Call → Answer → Type 0 };

    /// It has so many registers, at any time.
    ghost has: { Self → ℕ };

    /// Returns how many registers the memory has.
    fn registers(&self) -> Registers
        ensures has { result.number ≡ has self.now };

    /// Begins a transaction.
    fn begin(&self, tx: &mut Tx) -> Did
        ensures gives { gives self.now Begin (did_answer result) };

    /// Reads the register.
    fn read(&self, tx: &mut Tx, register: Ix) -> Got
        ensures gives { gives self.now (Read register) (got_answer result) };

    /// Gives the register this value, for this transaction and, once it has committed, for all that follow.
    fn write(&self, tx: &mut Tx, register: Ix, value: u64) -> Did
        ensures gives { gives self.now (Write register value) (did_answer result) };

    /// Adds to the register, modulo 2^64, and returns the value before.
    fn add(&self, tx: &mut Tx, register: Ix, addend: u64) -> Got
        ensures gives { gives self.now (Add register addend) (got_answer result) };

    /// Ends the transaction with all that it has written, or aborts it.
    fn commit(&self, tx: &mut Tx) -> Did
        ensures gives { gives self.now Commit (did_answer result) };

    /// Ends the transaction with nothing written.
    fn abort(&self, tx: &mut Tx);

    /// It has 1 to 8 registers.
    ghost has_few: { (memory : Self) → (0 < has memory) × (has memory ≤ 8) };
}
