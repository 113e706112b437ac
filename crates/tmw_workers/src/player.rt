ghost use Rattle.tmw_workers.specs.Shared.{A, Stands, answers, ends};
ghost use Rattle.std.specs.Prelude.{IsTrue, OnSome, false, ◌+◌, ◌<◌, ◌==◌, ◌^◌, ◌≡◌};

use crate::ask::{ask, ends};
use crate::ending::Ending;
use tmw_events::{Ix, Kind};
use tmw_tm::{Tm, Tx};

/// A thread that makes the calls of its script, one at a time.
#[derive(Drop)]
pub struct Player {
    pub thread: Ix,
    /// The transaction as the memory sees it.
    pub tx: Tx,
    /// The place of the transaction in the script.
    pub transaction: usize,
    /// The place of the next call in the transaction.
    pub call: usize,
}

impl Player {
    ghost use Rattle.tmw_workers.specs.FreshTx.{IsFresh};
    ghost use Rattle.tmw_workers.specs.Player.{calls_of, left_of, next_of, GoesOn, IsEnding, IsNew};

    /// Returns a player of this thread that has made no call.
    pub fn new(thread: Ix) -> Player
        ensures { IsNew thread.number result }
    {
        Player {
            thread,
            tx: Tx::new(),
            transaction: 0,
            call: 0,
        }
    }

    /// Returns the next call of the script, if one is left.
    pub fn next(&self, script: &[Vec<Kind>]) -> Option<Kind>
        ensures next { result ≡ next_of (left_of (calls_of script.now) self.now) }
        ensures later_transaction { OnSome result (self.now.transaction + 1 < 2 ^ 64) }
        ensures later_call { OnSome result (self.now.call + 1 < 2 ^ 64) }
    {
        match script.get(self.transaction) {
            Some(calls) => calls.get(self.call).copied(),
            None => None,
        }
    }

    /// Tells how far the thread has come.
    pub fn ending(&self, script: &[Vec<Kind>]) -> Ending
        ensures { IsEnding (next_of (left_of (calls_of script.now) self.now)) result }
    {
        match self.next(script) {
            Some(_) => Ending::Left,
            None => Ending::Done,
        }
    }

    /// Makes the call in the memory, and returns the event that answers it. It does not go on in the script.
    pub fn ask(&mut self, memory: &(dyn Tm + Sync), call: Kind) -> Kind
        requires fresh { IsTrue (self.old.call == 0) → IsFresh self.old.tx }
        requires call { IsTrue (answers call A) }
        ensures fits { IsTrue (answers call result) }
        ensures stands { Stands (gives memory.now) (self.old.call == 0) call result }
        ensures thread { self.new.thread ≡ self.old.thread }
        ensures transaction { self.new.transaction ≡ self.old.transaction }
        ensures call { self.new.call ≡ self.old.call }
    {
        let first = self.call == 0;
        ask(memory, &mut self.tx, first, call)
    }

    /// Goes on after the answer to the next call: to the transaction's next call, or to the next transaction with a new `Tx`.
    pub fn go_on(&mut self, answer: Kind)
        requires later_transaction { self.old.transaction + 1 < 2 ^ 64 }
        requires later_call { self.old.call + 1 < 2 ^ 64 }
        ensures thread { self.new.thread ≡ self.old.thread }
        ensures left { GoesOn answer self.old self.new }
        ensures tx { ends answer ≡ false → self.new.tx ≡ self.old.tx }
    {
        if ends(answer) {
            self.tx = Tx::new();
            self.transaction += 1;
            self.call = 0;
        } else {
            self.call += 1;
        }
    }
}
