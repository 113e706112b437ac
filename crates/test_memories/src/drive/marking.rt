//! A memory whose answers tell how it was called.
use tmw_events::{Ix, Registers};
use tmw_tm::{Did, Entry, Got, Tm, Tx};

/// A memory that begins a transaction only where its `Tx` is new, writes into each `Tx` that it gets, and aborts each read.
#[derive(Drop)]
pub struct Marking {
    pub registers: Registers,
}

/// Writes into each field.
fn mark(tx: &mut Tx) {
    tx.snapshot = 1;
    tx.begun = true;
    let _ = tx.reads.try_push(Entry::default());
    let _ = tx.writes.try_push(Entry::default());
}

impl Tm for Marking {
    ghost gives = { λ memory call answer. Unit {0} };

    ghost has = { λ memory. memory.registers.number };

    ghost has_few = { λ memory. (memory.registers.some, memory.registers.most) };

    fn registers(&self) -> Registers {
        self.registers
    }

    fn begin(&self, tx: &mut Tx) -> Did {
        let new = tx.snapshot == 0 && !tx.begun && tx.reads.is_empty() && tx.writes.is_empty();
        mark(tx);
        if new { Did::Done } else { Did::Abort }
    }

    fn read(&self, tx: &mut Tx, _register: Ix) -> Got {
        mark(tx);
        Got::Abort
    }

    fn write(&self, tx: &mut Tx, _register: Ix, _value: u64) -> Did {
        mark(tx);
        Did::Done
    }

    fn add(&self, tx: &mut Tx, _register: Ix, _addend: u64) -> Got {
        mark(tx);
        Got::Value(0)
    }

    fn commit(&self, tx: &mut Tx) -> Did {
        mark(tx);
        Did::Done
    }

    fn abort(&self, tx: &mut Tx) {
        mark(tx);
    }
}
