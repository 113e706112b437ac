//! What the memories share: how a transaction begins and ends, its writes, and what it reads of them.
ghost use Rattle.std.specs.Prelude.{◌≡◌, ◌↔◌, length, IfSome, IsTrue};
ghost use Rattle.std.specs.Bool.{OnTrue, OnFalse};
ghost use Rattle.tmw_memories.specs.Calls.{Appends, IsBegun, IsEnded, MayUse, Writes, entry, latest as latest_of};
ghost use Rattle.tmw_tm.specs.declared.answer.Did.TheVariants.{Done};

use crate::register_words::Words;
use tmw_events::{Ix, Registers};
use tmw_tm::{Entries, Entry, Tx};

/// How often a call tries again before it aborts its transaction.
pub const TURNS: u64 = 64;

/// Begins the transaction with this snapshot.
pub fn begin(tx: &mut Tx, snapshot: u64)
    ensures begun { IsBegun tx.new }
    ensures snapshot { tx.new.snapshot ≡ snapshot }
{
    end(tx);
    tx.snapshot = snapshot;
    tx.begun = true;
}

/// Ends the transaction, so that nothing is left of it.
pub fn end(tx: &mut Tx)
    ensures { IsEnded tx.new }
{
    tx.begun = false;
    tx.reads.clear();
    tx.writes.clear();
}

/// Tells whether the transaction has begun and there is such a register.
pub fn may_use(registers: Registers, tx: &Tx, register: Ix) -> bool
    ensures { IsTrue result ↔ MayUse registers tx.now register }
{
    tx.begun && register.get() < registers.get()
}

/// Returns the value of the latest of these writes to the register, if there is one.
pub fn latest(writes: &Entries, register: Ix) -> Option<u64>
    ensures { result ≡ latest_of writes.now.items register }
{
    writes
        .as_slice()
        .iter()
        .rev()
        .find(|write| write.register.get() == register.get())
        .map(|write| write.value)
}

/// Returns the value of the latest own write to the register, or else the one that the register has now.
pub fn value_of(words: &Words, tx: &Tx, register: Ix) -> u64
    ensures { IfSome (latest_of tx.now.writes.items register) (λ own. result ≡ own) }
{
    match latest(&tx.writes, register) {
        Some(own) => own,
        None => words.load(register),
    }
}

/// Appends an entry if there is room for it, and tells whether there was.
pub fn append(entries: &mut Entries, register: Ix, value: u64) -> bool
    ensures done { OnTrue result
        (Appends entries.old.items (entry register value) entries.new.items) }
    ensures full { OnFalse result (length entries.old.items ≡ 16) }
{
    entries.try_push(Entry { register, value }).is_ok()
}

/// Appends a write of the transaction if it may be made, and tells whether it was.
pub fn write(registers: Registers, tx: &mut Tx, register: Ix, value: u64) -> bool
    ensures done { OnTrue result (Writes registers tx.old register value Done tx.new) }
    ensures full { OnFalse result
        (MayUse registers tx.old register → length tx.old.writes.items ≡ 16) }
    ensures begun { tx.new.begun ≡ tx.old.begun }
{
    may_use(registers, tx, register) && append(&mut tx.writes, register, value)
}
