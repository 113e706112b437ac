//! A memory whose calls are counted.
ghost use Rattle.std.proofs.Common.{rules};
ghost use Rattle.std.proofs.lemmas.Grind.{common_steps};
ghost use Rattle.std.specs.Prelude.{◌≡◌, ℕ};
ghost use Rattle.tmw_tm.specs.Answers.Answer.{Value};

use crate::workload_log::has_recorded;
use std::sync::atomic::{AtomicU64, Ordering};
use test_support::FIRST;
use tmw_defs::Verdict;
use tmw_drive::Outcome;
use tmw_events::{Ix, Kind, Registers};
use tmw_tm::{Did, Got, Tm, Tx};

/// Whether a memory has answered 7 to two reads of a transaction, and has committed it.
pub fn is_two_sevens(outcome: &Outcome) -> bool {
    let log = [
        Kind::R(FIRST),
        Kind::V(7),
        Kind::R(FIRST),
        Kind::V(7),
        Kind::T,
        Kind::C,
    ];
    has_recorded(outcome.log.as_slice(), &log) && outcome.verdict == Verdict::Violated(2)
}

/// A memory of one register that answers one value to each read and each add, carries out each write, and counts its calls. It
/// begins transactions, or aborts them, and commits them, or aborts them at their commits, as it was made to do.
#[derive(Drop)]
pub struct CallCounter {
    at_begin: Did,
    at_commit: Did,
    value: u64,
    begins: AtomicU64,
    reads: AtomicU64,
    writes: AtomicU64,
    adds: AtomicU64,
    commits: AtomicU64,
    aborts: AtomicU64,
}

impl CallCounter {
    /// Makes a memory that answers so to a begin, to a commit, and to reads and adds.
    pub fn new(at_begin: Did, at_commit: Did, value: u64) -> CallCounter {
        CallCounter {
            at_begin,
            at_commit,
            value,
            begins: AtomicU64::new(0),
            reads: AtomicU64::new(0),
            writes: AtomicU64::new(0),
            adds: AtomicU64::new(0),
            commits: AtomicU64::new(0),
            aborts: AtomicU64::new(0),
        }
    }

    /// Returns how many begins, reads, writes, adds, commits and aborts there were.
    pub fn counts(&self) -> [u64; 6] {
        [
            self.begins.load(Ordering::SeqCst),
            self.reads.load(Ordering::SeqCst),
            self.writes.load(Ordering::SeqCst),
            self.adds.load(Ordering::SeqCst),
            self.commits.load(Ordering::SeqCst),
            self.aborts.load(Ordering::SeqCst),
        ]
    }
}

impl Tm for CallCounter {
    ghost gives = { λ memory call answer. (value : ℕ) → answer ≡ Value value → value ≡ memory.value };

    ghost has = { λ memory. 1 };

    ghost has_few = { λ memory. (Prim.search (rules, common_steps), Prim.search (rules, common_steps)) };

    fn registers(&self) -> Registers {
        Registers { number: 1 }
    }

    fn begin(&self, _tx: &mut Tx) -> Did {
        self.begins.fetch_add(1, Ordering::SeqCst);
        self.at_begin
    }

    fn read(&self, _tx: &mut Tx, _register: Ix) -> Got {
        self.reads.fetch_add(1, Ordering::SeqCst);
        Got::Value(self.value)
    }

    fn write(&self, _tx: &mut Tx, _register: Ix, _value: u64) -> Did {
        self.writes.fetch_add(1, Ordering::SeqCst);
        Did::Done
    }

    fn add(&self, _tx: &mut Tx, _register: Ix, _addend: u64) -> Got {
        self.adds.fetch_add(1, Ordering::SeqCst);
        Got::Value(self.value)
    }

    fn commit(&self, _tx: &mut Tx) -> Did {
        self.commits.fetch_add(1, Ordering::SeqCst);
        self.at_commit
    }

    fn abort(&self, _tx: &mut Tx) {
        self.aborts.fetch_add(1, Ordering::SeqCst);
    }
}
