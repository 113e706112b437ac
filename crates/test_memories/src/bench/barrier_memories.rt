//! Memories of which a call waits until other threads have come as far.
ghost use Rattle.std.proofs.Common.{rules};
ghost use Rattle.std.proofs.lemmas.Grind.{common_steps};

use std::sync::atomic::{AtomicU64, Ordering};
use tmw_events::{Ix, Registers};
use tmw_tm::{Did, Got, Tm, Tx};

/// How often a thread looks for the other one.
const LOOKS: u64 = 1_000_000_000;

/// Waits until there are so many, and answers whether there were. It does not wait for ever: without a pause between its looks, some
/// seconds.
fn come(count: &AtomicU64, least: u64) -> bool {
    for _ in 0..LOOKS {
        if count.load(Ordering::SeqCst) >= least {
            return true;
        }
    }
    false
}

/// A memory of two registers, in which a read of one waits until the other is read too. It aborts a read that waits in vain.
#[derive(Drop)]
pub struct Waiting {
    first: AtomicU64,
    second: AtomicU64,
}

impl Waiting {
    pub fn new() -> Waiting {
        Waiting {
            first: AtomicU64::new(0),
            second: AtomicU64::new(0),
        }
    }
}

impl Tm for Waiting {
    ghost gives = { λ memory call answer. Unit {0} };

    ghost has = { λ memory. 2 };

    ghost has_few = { λ memory. (Prim.search (rules, common_steps), Prim.search (rules, common_steps)) };

    fn registers(&self) -> Registers {
        Registers { number: 2 }
    }

    fn begin(&self, _tx: &mut Tx) -> Did {
        Did::Done
    }

    fn read(&self, _tx: &mut Tx, register: Ix) -> Got {
        let (own, other) = if register.get() == 0 {
            (&self.first, &self.second)
        } else {
            (&self.second, &self.first)
        };
        own.store(1, Ordering::SeqCst);
        if come(other, 1) {
            Got::Value(0)
        } else {
            Got::Abort
        }
    }

    fn write(&self, _tx: &mut Tx, _register: Ix, _value: u64) -> Did {
        Did::Done
    }

    fn add(&self, tx: &mut Tx, register: Ix, _addend: u64) -> Got {
        self.read(tx, register)
    }

    fn commit(&self, _tx: &mut Tx) -> Did {
        Did::Done
    }

    fn abort(&self, _tx: &mut Tx) {}
}

/// A memory of one register that stays 0. It holds the first begin, or the first of all other calls, until two more of these were
/// made, and aborts what it holds in vain.
#[derive(Drop)]
pub struct Overtaken {
    holds_begin: bool,
    calls: AtomicU64,
}

impl Overtaken {
    pub fn new(holds_begin: bool) -> Overtaken {
        Overtaken {
            holds_begin,
            calls: AtomicU64::new(0),
        }
    }

    /// Holds a begin or another call where it is the one to be held, and aborts it where that was in vain.
    fn let_go(&self, begins: bool) -> Did {
        let goes_on = begins != self.holds_begin
            || self.calls.fetch_add(1, Ordering::SeqCst) > 0
            || come(&self.calls, 3);
        if goes_on { Did::Done } else { Did::Abort }
    }
}

impl Tm for Overtaken {
    ghost gives = { λ memory call answer. Unit {0} };

    ghost has = { λ memory. 1 };

    ghost has_few = { λ memory. (Prim.search (rules, common_steps), Prim.search (rules, common_steps)) };

    fn registers(&self) -> Registers {
        Registers { number: 1 }
    }

    fn begin(&self, _tx: &mut Tx) -> Did {
        self.let_go(true)
    }

    fn read(&self, _tx: &mut Tx, _register: Ix) -> Got {
        match self.let_go(false) {
            Did::Done => Got::Value(0),
            Did::Abort => Got::Abort,
        }
    }

    fn write(&self, _tx: &mut Tx, _register: Ix, _value: u64) -> Did {
        self.let_go(false)
    }

    fn add(&self, tx: &mut Tx, register: Ix, _addend: u64) -> Got {
        self.read(tx, register)
    }

    fn commit(&self, _tx: &mut Tx) -> Did {
        self.let_go(false)
    }

    fn abort(&self, _tx: &mut Tx) {
        self.let_go(false);
    }
}
