ghost use Rattle.tmw_cuts.specs.Shared.{State, after_writes, reads_hold};
ghost use Rattle.std.specs.Prelude.{IsTrue, [], length, ◌++◌, ◌∷◌, ◌≡◌};
ghost use Rattle.tmw_cuts.specs.Effects.{IsEffectOf, IsEffectOf-prop, leaves_none};
ghost use Rattle.tmw_cuts.specs.RegisterMask.{IsMaskOf};
ghost use Rattle.tmw_cuts.specs.Replays.{Replays};
ghost use Rattle.tmw_cuts.specs.RegisterUse.{writes, needs};

use crate::effect::Effect;
use crate::ghost_list::GhostList;
use crate::operation_and_status::status_after;
use crate::states::State;
use tmw_defs::{Op, Status};
use tmw_events::Kind;

/// How many transactions a window has at most.
pub const MOST_TRANSACTIONS: usize = 8;

/// A transaction of a window.
#[derive(Debug, Drop)]
pub struct Txn {
    /// Its answered operations, in order, for clauses alone.
    pub ops: GhostList<Op>,
    pub status: Status,
    /// Bit j says that transaction j of the window had completed before this one's first event.
    pub before: u8,
    /// What its operations need and leave.
    effect: Effect,
    pub ghost sums: { IsEffectOf effect ops.items } by { IsEffectOf-prop effect ops.items },
}

impl Txn {
    ghost use Rattle.tmw_cuts.specs.Views.{effect_of, new_view, view, with_op, with_status};

    /// Makes one that begins with an event of this kind, where those in the mask have completed.
    pub(crate) fn new(kind: Kind, before: u8) -> Txn
        ensures { view result ≡ new_view kind before }
    {
        Txn {
            ops: GhostList::new(),
            status: status_after(kind),
            before,
            effect: Effect::new(),
        }
    }

    /// Begins another with an event of this kind, where those in the mask have completed.
    #[inline(always)]
    pub(crate) fn begin(&mut self, kind: Kind, before: u8)
        ensures { view self.new ≡ new_view kind before }
    {
        self.ops = GhostList::new();
        self.status = status_after(kind);
        self.before = before;
        self.effect.clear();
    }

    /// Takes one more operation.
    #[inline(always)]
    pub(crate) fn add(&mut self, op: Op)
        ensures { view self.new ≡ with_op op (view self.old) }
    {
        self.ops = self.ops.then(&Some(op));
        self.effect.add(op);
    }

    /// Gives it this status.
    #[inline(always)]
    pub(crate) fn put_status(&mut self, status: Status)
        ensures { view self.new ≡ with_status status (view self.old) }
    {
        self.status = status;
    }

    /// Returns what its operations need and leave.
    #[inline(always)]
    pub fn effect(&self) -> &Effect
        ensures { result.now ≡ effect_of self.now }
    {
        &self.effect
    }

    /// Tells whether each of its operations was answered what the registers held then.
    #[inline(always)]
    pub fn fits(&self, state: &State) -> bool
        ensures { result ≡ reads_hold state.now self.now.ops.items }
    {
        self.effect.fits(state)
    }

    /// Returns what the registers hold after its operations, if each of them was answered what the registers held
    /// then.
    #[inline(always)]
    pub fn after(&self, state: &State) -> Option<State>
        ensures { Replays state.now self.now.ops.items result }
    {
        self.effect.after(state)
    }

    /// Makes of the state what the registers hold after its operations. No answer is compared.
    #[inline(always)]
    pub fn leave_in(&self, state: &mut State)
        ensures { state.new ≡ after_writes state.old self.now.ops.items }
    {
        self.effect.leave_in(state);
    }

    /// Tells whether each of its operations was answered what the registers held then, this one after them too. The result counts only
    /// if each was without it.
    #[inline(always)]
    pub fn fits_more(&self, state: &State, op: Op) -> bool
        ensures { IsTrue (reads_hold state.now self.now.ops.items)
            → result ≡ reads_hold state.now (self.now.ops.items ++ op ∷ []) }
    {
        match op {
            Op::Read(register, value) | Op::Add(register, _, value) => {
                self.effect.value_after(state, register) == value
            }
            Op::Write(_, _) => true,
        }
    }

    /// Tells whether its operations write nothing.
    #[inline(always)]
    pub fn only_reads(&self) -> bool
        ensures shown { result ≡ leaves_none (effect_of self.now) }
        ensures leaves { IsTrue result → (s : State) → length s ≡ 8
            → after_writes s self.now.ops.items ≡ s }
    {
        self.effect.only_reads()
    }

    /// Returns the registers that its operations write or add to, as a mask.
    pub fn written(&self) -> u8
        ensures { IsMaskOf (λ r. writes r self.now.ops.items) result }
    {
        self.effect.written()
    }

    /// Returns the registers that its operations read or add to before they write or add to them, as a mask.
    pub fn needed(&self) -> u8
        ensures { IsMaskOf (λ r. needs r self.now.ops.items) result }
    {
        self.effect.needed()
    }

    /// Makes a transaction that shows the same.
    pub(crate) fn copy(&self) -> Txn
        ensures { view result ≡ view self.now }
    {
        Txn {
            ops: self.ops.then(&None),
            status: self.status,
            before: self.before,
            effect: self.effect,
        }
    }
}
