ghost use Rattle.std.specs.Prelude.{◌≡◌, ◌%◌, IfSome};
ghost use Rattle.tmw_memories.specs.Calls.{Adds, IsEnded, Writes};
ghost use Rattle.tmw_memories.specs.RegisterCount.{norec_registers};
ghost use Rattle.tmw_memories.specs.SequenceLockCalls.{BeginsFree, CommitsOrAborts, ReadsAndKeeps};

use crate::register_words::Words;
use crate::tx_calls::{TURNS, append, begin, end, latest, may_use, write};
use std::sync::atomic::{AtomicU64, Ordering};
use tmw_events::{Ix, Registers};
use tmw_tm::{Did, Entry, Got, Tm, Tx};

/// The memory of Dalessandro, Spear and Scott, "NOrec: Streamlining STM by Abolishing Ownership Records" (PPoPP 2010).
///
/// There is one sequence lock, which is even when it is free. Writes are kept in the transaction until it commits, and no
/// register has an owner. Where the lock has moved, a transaction goes on only if what it has read still has the same values.
/// Each of its loops ends with an abort after 64 turns.
#[derive(Drop)]
pub struct NoRec {
    registers: Registers,
    // Odd while a transaction stores what it has written.
    lock: AtomicU64,
    words: Words,
}

impl NoRec {
    /// Makes a memory of so many registers, all 0, whose lock is free. It allocates nothing.
    pub fn new(registers: Registers) -> NoRec
        ensures { norec_registers result ≡ registers }
    {
        NoRec {
            registers,
            lock: AtomicU64::new(0),
            words: Words::zeros(),
        }
    }

    /// A snapshot: the lock's number, where it is free at one of 64 looks.
    fn snapshot(&self) -> Option<u64>
        ensures { IfSome result (λ seen. seen % 2 ≡ 0) }
    {
        for _ in 0..TURNS {
            let seen = self.lock.load(Ordering::SeqCst);
            if seen % 2 == 0 {
                return Some(seen);
            }
        }
        None
    }

    /// A snapshot at which all that was read had still the values that were read.
    fn validate(&self, reads: &[Entry]) -> Option<u64>
        ensures { IfSome result (λ seen. seen % 2 ≡ 0) }
    {
        for _ in 0..TURNS {
            let seen = self.lock.load(Ordering::SeqCst);
            if seen % 2 == 1 {
                continue;
            }
            if !self.words.hold(reads) {
                return None;
            }
            if self.lock.load(Ordering::SeqCst) == seen {
                return Some(seen);
            }
        }
        None
    }

    /// A snapshot at which all that was read had still the values that were read, and the register's value at it.
    fn load(&self, tx: &Tx, register: Ix) -> Option<(u64, u64)>
        ensures { tx.now.snapshot % 2 ≡ 0 → IfSome result (λ loaded. loaded.0 % 2 ≡ 0) }
    {
        let mut snapshot = tx.snapshot;
        let mut value = self.words.load(register);
        for _ in 0..TURNS {
            if self.lock.load(Ordering::SeqCst) == snapshot {
                return Some((snapshot, value));
            }
            let Some(validated) = self.validate(&tx.reads) else {
                return None;
            };
            snapshot = validated;
            value = self.words.load(register);
        }
        if self.lock.load(Ordering::SeqCst) == snapshot {
            Some((snapshot, value))
        } else {
            None
        }
    }

    /// Takes the lock at a snapshot at which all that was read had still the values that were read. The lock is then one more.
    fn take_lock(&self, tx: &Tx) -> Option<u64>
        ensures { tx.now.snapshot % 2 ≡ 0 → IfSome result (λ seen. seen % 2 ≡ 0) }
    {
        let mut snapshot = tx.snapshot;
        for _ in 0..TURNS {
            let odd = snapshot.wrapping_add(1);
            if self
                .lock
                .compare_exchange(snapshot, odd, Ordering::SeqCst, Ordering::SeqCst)
                .is_ok()
            {
                return Some(snapshot);
            }
            let Some(validated) = self.validate(&tx.reads) else {
                return None;
            };
            snapshot = validated;
        }
        None
    }

    /// Stores what the transaction has written, where the lock can be taken.
    fn store(&self, tx: &Tx) -> bool {
        let Some(snapshot) = self.take_lock(tx) else {
            return false;
        };
        self.words.store(&tx.writes);
        self.lock.store(snapshot.wrapping_add(2), Ordering::SeqCst);
        true
    }
}

impl Tm for NoRec {
    ghost gives = { λ memory call answer. Unit {0} };

    ghost has = { λ memory. (norec_registers memory).number };

    ghost has_few = { λ memory. ((norec_registers memory).some, (norec_registers memory).most) };

    fn registers(&self) -> Registers
        ensures { result ≡ norec_registers self.now }
    {
        self.registers
    }

    fn begin(&self, tx: &mut Tx) -> Did
        ensures begins { BeginsFree tx.old result tx.new }
    {
        if tx.begun {
            self.abort(tx);
            return Did::Abort;
        }
        let Some(snapshot) = self.snapshot() else {
            self.abort(tx);
            return Did::Abort;
        };
        begin(tx, snapshot);
        Did::Done
    }

    fn read(&self, tx: &mut Tx, register: Ix) -> Got
        ensures reads { ReadsAndKeeps (norec_registers self.now) tx.old register result tx.new }
    {
        if !may_use(self.registers, tx, register) {
            self.abort(tx);
            return Got::Abort;
        }
        if let Some(own) = latest(&tx.writes, register) {
            return Got::Value(own);
        }
        let Some((snapshot, value)) = self.load(tx, register) else {
            self.abort(tx);
            return Got::Abort;
        };
        tx.snapshot = snapshot;
        if !append(&mut tx.reads, register, value) {
            self.abort(tx);
            return Got::Abort;
        }
        Got::Value(value)
    }

    fn write(&self, tx: &mut Tx, register: Ix, value: u64) -> Did
        ensures writes { Writes (norec_registers self.now) tx.old register value result tx.new }
    {
        if write(self.registers, tx, register, value) {
            Did::Done
        } else {
            self.abort(tx);
            Did::Abort
        }
    }

    fn add(&self, tx: &mut Tx, register: Ix, addend: u64) -> Got
        ensures adds { Adds (ReadsAndKeeps (norec_registers self.now))
            (Writes (norec_registers self.now)) tx.old register addend result tx.new }
    {
        match self.read(tx, register) {
            Got::Value(value) => match self.write(tx, register, value.wrapping_add(addend)) {
                Did::Done => Got::Value(value),
                Did::Abort => Got::Abort,
            },
            Got::Abort => Got::Abort,
        }
    }

    fn commit(&self, tx: &mut Tx) -> Did
        ensures commits { CommitsOrAborts tx.old result tx.new }
    {
        let done = tx.begun && (tx.writes.is_empty() || self.store(tx));
        // As after an abort, nothing is left of it.
        self.abort(tx);
        if done { Did::Done } else { Did::Abort }
    }

    fn abort(&self, tx: &mut Tx)
        ensures { IsEnded tx.new }
    {
        end(tx);
    }
}
