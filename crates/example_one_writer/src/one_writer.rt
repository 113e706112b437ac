ghost use Rattle.std.specs.Prelude.{◌≡◌, ◌<◌, ◌↔◌, true, IsTrue};
ghost use Rattle.example_one_writer.specs.Registers.{registers_of};

use std::array;
use std::sync::atomic::AtomicU64;
use std::sync::atomic::Ordering::SeqCst;
use tmw_events::{Ix, MOST_REGISTERS, Registers};
use tmw_tm::{Did, Entry, Got, Tm, Tx};

/// A memory to which one transaction at a time writes, from its first write to its end.
///
/// The sequence is even while nobody writes, and one more while somebody does. A transaction that finds it changed since its
/// begin aborts at its next read, and at its first write. One that writes is alone, so a commit is never refused.
#[derive(Drop)]
pub struct OneWriter {
    registers: Registers,
    sequence: AtomicU64,
    values: [AtomicU64; MOST_REGISTERS],
}

impl OneWriter {
    /// Makes a memory of so many registers, all 0.
    pub fn new(registers: Registers) -> OneWriter
        ensures { registers_of result ≡ registers }
    {
        OneWriter {
            registers,
            sequence: AtomicU64::new(0),
            values: array::from_fn(|_| AtomicU64::new(0)),
        }
    }

    /// Whether the transaction has begun, and there is such a register.
    fn may_use(&self, tx: &Tx, register: Ix) -> bool
        ensures { IsTrue result ↔
            ((tx.now.begun ≡ true) × (register.number < self.now.registers.number)) }
    {
        tx.begun && register.get() < self.registers.get()
    }

    /// Makes the transaction the one that writes, if it is not yet and nothing was stored since it began.
    fn take_turn(&self, tx: &Tx) -> bool {
        if !tx.writes.is_empty() {
            return true;
        }
        let odd = tx.snapshot.wrapping_add(1);
        let seen = self
            .sequence
            .compare_exchange(tx.snapshot, odd, SeqCst, SeqCst);
        seen.is_ok()
    }
}

impl Tm for OneWriter {
    ghost use Rattle.example_one_writer.specs.Gives.{Gives};
    ghost use Rattle.example_one_writer.specs.Leaves.{GoesOnOrEnds, IsBegun, IsEnded};
    ghost use Rattle.tmw_tm.specs.Answers.{did_answer, got_answer};
    ghost use Rattle.tmw_tm.specs.Answers.Call.{Begin, Read, Write, Add, Commit};

    ghost gives = { λ memory call answer. Gives (registers_of memory) call answer };

    ghost has = { λ memory. (registers_of memory).number };

    ghost has_few = { λ memory. ((registers_of memory).some, (registers_of memory).most) };

    fn registers(&self) -> Registers
        ensures { result ≡ registers_of self.now }
    {
        self.registers
    }

    fn begin(&self, tx: &mut Tx) -> Did
        ensures gives { Gives (registers_of self.now) Begin (did_answer result) }
        ensures begun { IsBegun tx.new }
    {
        self.abort(tx);
        let seen = self.sequence.load(SeqCst);
        tx.snapshot = seen - seen % 2;
        tx.begun = true;
        Did::Done
    }

    fn read(&self, tx: &mut Tx, register: Ix) -> Got
        ensures gives { Gives (registers_of self.now) (Read register) (got_answer result) }
        ensures leaves { GoesOnOrEnds (got_answer result) tx.new }
    {
        if self.may_use(tx, register) {
            let mut latest = tx.writes.as_slice().iter().rev();
            if let Some(own) = latest.find(|write| write.register == register) {
                return Got::Value(own.value);
            }
            let value = self.values[usize::from(register.get())].load(SeqCst);
            if !tx.writes.is_empty() || self.sequence.load(SeqCst) == tx.snapshot {
                return Got::Value(value);
            }
        }
        self.abort(tx);
        Got::Abort
    }

    fn write(&self, tx: &mut Tx, register: Ix, value: u64) -> Did
        ensures gives { Gives (registers_of self.now) (Write register value) (did_answer result) }
        ensures leaves { GoesOnOrEnds (did_answer result) tx.new }
    {
        let may_write = self.may_use(tx, register) && self.take_turn(tx);
        if may_write && tx.writes.try_push(Entry { register, value }).is_ok() {
            return Did::Done;
        }
        self.abort(tx);
        Did::Abort
    }

    fn add(&self, tx: &mut Tx, register: Ix, addend: u64) -> Got
        ensures gives { Gives (registers_of self.now) (Add register addend) (got_answer result) }
        ensures leaves { GoesOnOrEnds (got_answer result) tx.new }
    {
        let Got::Value(value) = self.read(tx, register) else {
            return Got::Abort;
        };
        match self.write(tx, register, value.wrapping_add(addend)) {
            Did::Done => Got::Value(value),
            Did::Abort => Got::Abort,
        }
    }

    fn commit(&self, tx: &mut Tx) -> Did
        ensures gives { Gives (registers_of self.now) Commit (did_answer result) }
        ensures ended { IsEnded tx.new }
    {
        for write in tx.writes.as_slice() {
            self.values[usize::from(write.register.get())].store(write.value, SeqCst);
        }
        // The sequence goes on to the next even number, where the transaction has written.
        tx.snapshot = tx.snapshot.wrapping_add(2);
        self.abort(tx);
        Did::Done
    }

    fn abort(&self, tx: &mut Tx)
        ensures { IsEnded tx.new }
    {
        if !tx.writes.is_empty() {
            self.sequence.store(tx.snapshot, SeqCst);
        }
        tx.writes.clear();
        tx.begun = false;
    }
}
