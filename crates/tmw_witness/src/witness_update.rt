ghost use Rattle.std.specs.Prelude.{◌≡◌, ◌⊎◌, ◌+◌, ◌≤◌, ◌<◌, ℕ, [], ◌∷◌, ◌++◌, List, MatchOption, IsTrue, IsFalse, length, false, true};
ghost use Rattle.std.specs.Int.{bit_at};
ghost use Rattle.tmw_defs.specs.Opaque.{State, may_hold, reads_hold, after_writes};
ghost use Rattle.tmw_defs.specs.declared.status.Status.TheVariants.{Pending, Committed, Aborted};
ghost use Rattle.tmw_cuts.specs.Views.{View, view, bit};

use crate::witness::Witness;
use tmw_cuts::{Move, State, Txn, Window};
use tmw_defs::Status;
use tmw_events::{Event, Ix, Kind};

/// Whether the transaction's operations leave the state as it is.
fn leaves_state(item: &Txn, state: &State) -> bool
    ensures { IsTrue result → after_writes state.now item.now.ops.items ≡ state.now }
{
    item.after(state) == Some(*state)
}

impl Witness {
    ghost use Rattle.tmw_witness.specs.Witness.{ComesAbove, FitsAt, Witnesses, rank_of, committed_of, state_of};
    ghost use Rattle.tmw_witness.specs.EventAtPlace.{TurnsAt};
    ghost use Rattle.tmw_events.specs.declared.event.Event.{Event};
    ghost use Rattle.tmw_cuts.specs.StandsFor.{IsNext, StandsFor, views_of};
    ghost use Rattle.tmw_cuts.specs.declared.turn.Move.TheVariants.{End};
    ghost use Rattle.tmw_cuts.specs.declared.window.Window.{Window};

    /// Takes in that a transaction begins at the place, behind the others.
    #[inline(always)]
    pub fn begin(&mut self, place: Ix)
        ensures stands { (starts : List State) (xs : List View) (y : View) → length xs ≡ place.number
            → y.ops ≡ [] → IsTrue (may_hold y.status false)
            → ((j : ℕ) → bit_at y.before j ≡ 1 → j < length xs) → Witnesses starts xs self.old
            → Witnesses starts (xs ++ y ∷ []) self.new }
        ensures known { self.new.known ≡ self.old.known }
    {
        self.ranks[place.get() as usize] = self.top;
        self.committed[place.get() as usize] = false;
    }

    /// The rank above the transaction: the next, where it is taken as committed.
    fn above(&self, place: usize) -> u32
        requires { place < 8 }
        ensures { result ≡ rank_of self.now place + bit (committed_of self.now place) }
    {
        let rank = u32::from(self.ranks[place]);
        if self.committed[place] {
            rank + 1
        } else {
            rank
        }
    }

    /// The lowest rank at which a transaction may stand that these precede.
    fn lowest(&self, before: u8) -> u32
        ensures above { ComesAbove self.now before result }
        ensures least { (rank : ℕ) → ComesAbove self.now before rank → result ≤ rank }
    {
        let mut low = 0u32;
        for place in 0..8 {
            if before >> place & 1 == 1 {
                low = low.max(self.above(place));
            }
        }
        low
    }

    /// Whether the transaction's reads hold in the state of the rank.
    fn holds_at(&self, item: &Txn, rank: u8) -> bool
        ensures holds { IsTrue result
            → (rank < 9) × IsTrue (reads_hold (state_of self.now rank) item.now.ops.items) }
        ensures all { rank < 9 → IsTrue (reads_hold (state_of self.now rank) item.now.ops.items)
            → IsTrue result }
    {
        self.states
            .get(usize::from(rank))
            .is_some_and(|state| item.fits(state))
    }

    /// A rank at which the transaction's reads hold, up to the highest and from the lowest at which it may stand, if there is
    /// one.
    fn other_rank(&self, item: &Txn) -> Option<u8>
        ensures { MatchOption result ((rank : ℕ) → FitsAt self.now item.now rank → ⊥)
            (FitsAt self.now item.now) }
    {
        let low = self.lowest(item.before);
        for rank in 0..9u8 {
            if low <= u32::from(rank) && rank <= self.top && self.holds_at(item, rank) {
                return Some(rank);
            }
        }
        None
    }

    /// Updates the order for an answer to a read or an add of the transaction: it stands where it stood, or at
    /// another rank, or the order is marked unknown.
    fn answer(&mut self, item: &Txn, place: Ix)
        ensures { (starts : List State) (xs ys : List View) (x : View)
            → TurnsAt xs ys place.number x (view item.now) → IsTrue (may_hold item.now.status false)
            → Witnesses starts xs self.old → Witnesses starts ys self.new }
    {
        let at = place.get() as usize;
        if self.is_held(place) {
            self.known = false;
            return;
        }
        if self.holds_at(item, self.ranks[at]) {
            return;
        }
        match self.other_rank(item) {
            Some(rank) => self.ranks[at] = rank,
            None => self.known = false,
        }
    }

    /// Whether the transaction stands at the end, or else its reads hold there.
    #[inline(always)]
    fn fits_end(&self, item: &Txn, place: Ix) -> bool
        requires { self.now.top < 9 }
        ensures { IsTrue result → (rank_of self.now place.number ≡ self.now.top)
            ⊎ IsTrue (reads_hold (state_of self.now self.now.top) item.now.ops.items) }
    {
        self.ranks[place.get() as usize] == self.top
            || item.fits(&self.states[usize::from(self.top)])
    }

    /// Puts the transaction, which was left out, at the end and takes it as committed, if it stands there or its reads hold there. Else it
    /// returns `false`. It is called, so that what has to be inlined into the reading of each line stays small enough to be.
    #[inline(never)]
    fn hold(&mut self, item: &Txn, place: Ix) -> bool
        ensures held { IsTrue result → (starts : List State) (xs ys : List View) (x : View)
            → TurnsAt xs ys place.number x (view item.now) → item.now.ops.items ≡ x.ops
            → IsTrue (may_hold item.now.status true)
            → Witnesses starts xs self.old → Witnesses starts ys self.new }
        ensures taken { IsTrue result → committed_of self.new place.number ≡ true }
        ensures left { IsFalse result → self.new ≡ self.old }
        ensures known { self.new.known ≡ self.old.known }
    {
        let at = place.get() as usize;
        let rank = usize::from(self.top);
        if rank >= 8 || self.is_held(place) || !self.fits_end(item, place) {
            return false;
        }
        self.ranks[at] = self.top;
        self.committed[at] = true;
        self.states[rank + 1] = self.states[rank];
        item.leave_in(&mut self.states[rank + 1]);
        self.top += 1;
        true
    }

    /// If the next event commits the transaction at the place, takes that as committed at the end of the order, if it writes and its
    /// reads hold there. So an order that is never searched for is that of the commits. A body that did nothing would cost time alone.
    #[inline(always)]
    pub fn hold_pending(&mut self, window: &Window, event: Event, place: Ix)
        ensures known { self.new.known ≡ self.old.known }
        ensures stands { (starts : List State) (events : List Event)
            → StandsFor window.now events → IsNext window.now event (End place)
            → Witnesses starts (views_of events) self.old
            → Witnesses starts (views_of events) self.new }
    {
        if !self.known || !matches!(event.kind, Kind::C) {
            return;
        }
        let item = window.slot(place);
        if item.only_reads() {
            return;
        }
        if let Status::Pending = item.status {
            let _held = self.hold(item, place);
        }
    }

    /// Takes in that the transaction has aborted: it stands as before, and is to be left out, or the order is marked
    /// unknown.
    #[inline(always)]
    fn abort(&mut self, place: Ix)
        ensures { (starts : List State) (xs ys : List View) (x y : View)
            → TurnsAt xs ys place.number x y → y.ops ≡ x.ops → IsTrue (may_hold y.status false)
            → Witnesses starts xs self.old → Witnesses starts ys self.new }
    {
        if self.is_held(place) {
            self.known = false;
        }
    }

    /// Takes in that the transaction has committed: it is taken so, or can be, or its operations leave the state as it is, or
    /// the order is marked unknown.
    fn commit(&mut self, item: &Txn, place: Ix)
        ensures { (starts : List State) (xs ys : List View) (x : View)
            → TurnsAt xs ys place.number x (view item.now) → item.now.status ≡ Committed
            → item.now.ops.items ≡ x.ops → Witnesses starts xs self.old
            → Witnesses starts ys self.new }
    {
        if self.is_held(place) {
            return;
        }
        if self.hold(item, place) {
            return;
        }
        let rank = usize::from(self.ranks[place.get() as usize]);
        let stays = self
            .states
            .get(rank)
            .is_some_and(|state| leaves_state(item, state));
        if !stays {
            self.known = false;
        }
    }

    /// Updates the order for the event that the window has taken last, or marks it unknown. The event was this to its thread.
    #[inline(always)]
    pub fn follow(&mut self, window: &Window, event: Event, step: Move)
        ensures { (starts : List State) (before : Window) (events : List Event)
            → StandsFor before events → IsNext before event step
            → StandsFor window.now (events ++ event ∷ [])
            → Witnesses starts (views_of events) self.old
            → Witnesses starts (views_of (events ++ event ∷ [])) self.new }
    {
        if !self.known {
            return;
        }
        match step {
            Move::Begin => self.begin(window.last()),
            // As it stands, it is one with a call more too.
            Move::Ask(_) => {}
            Move::Answer(place, _) => self.answer(window.slot(place), place),
            Move::End(place) => {
                if matches!(event.kind, Kind::C) {
                    self.commit(window.slot(place), place);
                } else {
                    self.abort(place);
                }
            }
        }
    }
}
