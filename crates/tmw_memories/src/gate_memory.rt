ghost use Rattle.std.specs.Prelude.{◌≡◌, IsTrue};
ghost use Rattle.tmw_memories.specs.Calls.{Adds, BeginsBy, Commits, IsEnded, Reads, Writes};
ghost use Rattle.tmw_memories.specs.RegisterCount.{gated_registers};

use crate::register_words::Words;
use crate::tx_calls::{begin, end, may_use, value_of, write};
use tmw_events::{Ix, Registers};
use tmw_tm::{Did, Got, Tm, Tx};

/// What a transaction passes when it begins, and leaves when it ends.
pub trait Gate: Drop {
    ghost use Rattle.std.specs.Prelude.{Bool, IsTrue};

    /// Whether it lets each transaction in.
    ghost is_open: { Bool };

    /// Lets a transaction in, and tells whether it did.
    fn enter(&self) -> bool
        ensures { IsTrue is_open → IsTrue result };

    /// Lets a transaction out that was let in.
    fn leave(&self);
}

/// A memory whose transactions pass a gate to begin, read what it holds, and store what they write when they commit.
#[derive(Drop)]
pub struct Gated<G: Gate> {
    pub(crate) registers: Registers,
    pub(crate) gate: G,
    pub(crate) words: Words,
}

impl<G: Gate> Tm for Gated<G> {
    ghost gives = { λ memory call answer. Unit {0} };

    ghost has = { λ memory. (gated_registers memory).number };

    ghost has_few = { λ memory. ((gated_registers memory).some, (gated_registers memory).most) };

    fn registers(&self) -> Registers
        ensures { result ≡ gated_registers self.now }
    {
        self.registers
    }

    fn begin(&self, tx: &mut Tx) -> Did
        ensures begins { BeginsBy G.is_open tx.old result tx.new }
    {
        if tx.begun || !self.gate.enter() {
            self.abort(tx);
            return Did::Abort;
        }
        begin(tx, 0);
        Did::Done
    }

    fn read(&self, tx: &mut Tx, register: Ix) -> Got
        ensures reads { Reads (gated_registers self.now) tx.old register result tx.new }
    {
        if may_use(self.registers, tx, register) {
            Got::Value(value_of(&self.words, tx, register))
        } else {
            self.abort(tx);
            Got::Abort
        }
    }

    fn write(&self, tx: &mut Tx, register: Ix, value: u64) -> Did
        ensures writes { Writes (gated_registers self.now) tx.old register value result tx.new }
    {
        if write(self.registers, tx, register, value) {
            Did::Done
        } else {
            self.abort(tx);
            Did::Abort
        }
    }

    fn add(&self, tx: &mut Tx, register: Ix, addend: u64) -> Got
        ensures adds { Adds (Reads (gated_registers self.now)) (Writes (gated_registers self.now))
            tx.old register addend result tx.new }
    {
        match self.read(tx, register) {
            Got::Value(value) => match self.write(tx, register, value.wrapping_add(addend)) {
                Did::Done => Got::Value(value),
                Did::Abort => Got::Abort,
            },
            Got::Abort => Got::Abort,
        }
    }

    fn commit(&self, tx: &mut Tx) -> Did
        ensures commits { Commits tx.old result tx.new }
    {
        let done = tx.begun;
        if done {
            self.words.store(&tx.writes);
        }
        // As after an abort, nothing is left of it.
        self.abort(tx);
        if done { Did::Done } else { Did::Abort }
    }

    fn abort(&self, tx: &mut Tx)
        ensures { IsEnded tx.new }
    {
        if tx.begun {
            self.gate.leave();
        }
        end(tx);
    }
}
