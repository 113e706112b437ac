//! Decides in few steps, before an event is taken, whether the known order is one with it too, as it stands.
ghost use Rattle.std.specs.Prelude.{◌≡◌, ◌++◌, [], ◌∷◌, IsTrue};
ghost use Rattle.tmw_defs.specs.Opaque.{State, reads_hold, after_writes};

use crate::witness::Witness;
use tmw_cuts::{State, Txn, Window};
use tmw_defs::Op;
use tmw_events::{Event, Ix, Kind};

/// Whether the transaction writes nothing, so that it leaves the state as it is.
#[inline(always)]
fn leaves(item: &Txn, state: &State) -> bool
    ensures { IsTrue result → after_writes state.now item.now.ops.items ≡ state.now }
{
    // Read, so that the proof knows that there are eight registers.
    let _registers = *state;
    item.only_reads()
}

impl Witness {
    ghost use Rattle.tmw_cuts.specs.declared.turn.Move.TheVariants.{Answer, End};
    ghost use Rattle.tmw_witness.specs.Witness.{ExplainsWith, rank_of, committed_of, state_of};

    /// Whether the transaction is taken as committed.
    #[inline(always)]
    pub(crate) fn is_held(&self, place: Ix) -> bool
        ensures { result ≡ committed_of self.now place.number }
    {
        self.committed[place.get() as usize]
    }

    /// Whether the reads of the transaction hold at its rank with this operation too, where they hold there so far.
    #[inline(always)]
    fn has_answer(&self, item: &Txn, place: Ix, op: Op) -> bool
        ensures { IsTrue result
            → IsTrue (reads_hold (state_of self.now (rank_of self.now place.number)) item.now.ops.items)
            → IsTrue (reads_hold (state_of self.now (rank_of self.now place.number))
            (item.now.ops.items ++ op ∷ [])) }
    {
        if let Op::Write(_, _) = op {
            return true;
        }
        match self
            .states
            .get(usize::from(self.ranks[place.get() as usize]))
        {
            Some(state) => item.fits_more(state, op),
            None => false,
        }
    }

    /// Whether the transaction writes nothing, and so may be taken as committed as well as left out.
    #[inline(always)]
    fn leaves_nothing(&self, item: &Txn, place: Ix) -> bool
        ensures { IsTrue result
            → after_writes (state_of self.now (rank_of self.now place.number)) item.now.ops.items
            ≡ state_of self.now (rank_of self.now place.number) }
    {
        match self
            .states
            .get(usize::from(self.ranks[place.get() as usize]))
        {
            Some(state) => leaves(item, state),
            None => false,
        }
    }

    /// Tells whether an order is known and, as it stands, is one with the next event too, an answer of the transaction at the place, which
    /// makes this operation.
    #[inline(always)]
    pub fn explains_answer(&self, window: &Window, event: Event, place: Ix, op: Op) -> bool
        ensures known { IsTrue result → IsTrue self.now.known }
        ensures stands { IsTrue result → ExplainsWith self.now window.now event (Answer place op) }
    {
        if !self.known {
            return false;
        }
        self.has_answer(window.slot(place), place, op)
    }

    /// Tells whether an order is known and, as it stands, is one with the next event too, which ends the transaction at the place. After
    /// `false` it may still be one: what a transaction writes may be there already.
    #[inline(always)]
    pub fn explains_end(&self, window: &Window, event: Event, place: Ix) -> bool
        ensures known { IsTrue result → IsTrue self.now.known }
        ensures stands { IsTrue result → ExplainsWith self.now window.now event (End place) }
    {
        if !self.known {
            return false;
        }
        if matches!(event.kind, Kind::C) {
            self.is_held(place) || self.leaves_nothing(window.slot(place), place)
        } else {
            !self.is_held(place)
        }
    }
}
