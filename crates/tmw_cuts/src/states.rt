ghost use Rattle.tmw_cuts.specs.Shared.{Contains, zeros};
ghost use Rattle.std.specs.Prelude.{IfOk, IsFalse, IsTrue, OnErr, OnOk, [], length, slice_get, ◌++◌, ◌<◌, ◌↔◌, ◌∷◌, ◌≡◌, ◌≤◌};
ghost use Rattle.std.specs.List.Sorted.{IsStrictlySortedBy};
ghost use Rattle.std.specs.Cmp.Lexicographic.{slice_cmp};
ghost use Rattle.std.specs.Ordering.{nat_cmp};
ghost use Rattle.std.proofs.lemmas.Map.Keys.{IsStrictlySortedBy-prop};

use std::alloc::{AllocError, Global};
use std::cmp::Ordering;
use tmw_events::MOST_REGISTERS;

/// What each register holds. Registers that the run does not have hold 0.
pub type State = [u64; MOST_REGISTERS];

/// The room of a set that needs no more memory: for the most outcomes that a history may have at a cut, and one more.
const ROOM: usize = 65;

/// A set of states.
#[derive(Debug, Drop)]
pub struct States {
    items: Vec<State>,
    pub ghost rising: { IsStrictlySortedBy (slice_cmp nat_cmp)
        items.items } by { IsStrictlySortedBy-prop (slice_cmp nat_cmp) items.items },
}

impl States {
    ghost use Rattle.tmw_cuts.specs.Members.{members, AddsMember, AreBelow, HasRoom, room_of};

    /// Makes the set of no state.
    pub fn empty(alloc: Global) -> States
        ensures { members result ≡ [] }
    {
        States {
            items: Vec::new(alloc),
        }
    }

    /// Makes the set of no state, with room for more than `most` states, and for 65 at least.
    pub fn roomy(alloc: Global, most: u8) -> Result<States, AllocError>
        ensures members { IfOk result (λ states. members states ≡ []) }
        ensures room { IfOk result HasRoom }
        ensures more { IfOk result (λ states. most < room_of states) }
    {
        Ok(States {
            items: Vec::with_capacity(alloc, ROOM.max(most as usize + 1))?,
        })
    }

    /// Makes the set of the state in which each register holds 0.
    pub fn zeros(alloc: Global) -> Result<States, AllocError>
        ensures { IfOk result (λ states. members states ≡ zeros ∷ []) }
    {
        States::only(alloc, [0; MOST_REGISTERS])
    }

    /// Makes the set of this state, with room.
    pub fn only(alloc: Global, state: State) -> Result<States, AllocError>
        ensures members { IfOk result (λ states. members states ≡ state ∷ []) }
        ensures room { IfOk result HasRoom }
    {
        let mut one = Vec::with_capacity(alloc, ROOM)?;
        one.push_reserved(state);
        Ok(States { items: one })
    }

    /// Returns how many states it has.
    pub fn len(&self) -> usize
        ensures { result ≡ length (members self.now) }
    {
        self.items.len()
    }

    /// Tells whether it has no state.
    pub fn is_empty(&self) -> bool
        ensures { IsTrue result ↔ (members self.now ≡ []) }
    {
        self.items.is_empty()
    }

    /// Returns the states, in rising order.
    pub fn states(&self) -> &[State]
        ensures members { result.now ≡ members self.now }
        ensures rising { IsStrictlySortedBy (slice_cmp nat_cmp) result.now }
    {
        self.items.as_slice()
    }

    /// Returns the state at this place in the rising order, if there is one.
    pub fn get(&self, index: usize) -> Option<State>
        ensures { result ≡ slice_get (members self.now) index }
    {
        self.items.get(index).copied()
    }

    /// Tells whether the state is one of the set.
    pub fn contains(&self, state: &State) -> bool
        ensures { IsTrue result ↔ Contains (members self.now) state.now }
    {
        self.items.binary_search(state).is_ok()
    }

    /// Whether each state of the set comes before this one.
    #[inline(always)]
    fn are_below(&self, state: &State) -> bool
        ensures { IsTrue result ↔ AreBelow (members self.now) state.now }
    {
        let items = self.states();
        if items.is_empty() {
            return true;
        }
        matches!(items[items.len() - 1].cmp(state), Ordering::Less)
    }

    /// Adds the state if each state of the set comes before it and there is memory. Returns whether it was added.
    #[inline(always)]
    pub fn push(&mut self, state: &State) -> bool
        ensures added { IsTrue result → members self.new ≡ members self.old ++ state.now ∷ [] }
        ensures left { IsFalse result → members self.new ≡ members self.old }
        ensures all { length (members self.old) < room_of self.old → AreBelow (members self.old) state.now
            → IsTrue result }
        ensures room { room_of self.old ≤ room_of self.new }
    {
        self.are_below(state) && self.items.push(*state).is_ok()
    }

    /// Adds the state, unless the set has it. A failed allocation changes nothing.
    pub fn insert(&mut self, state: State) -> Result<(), AllocError>
        ensures ok { OnOk result (AddsMember (members self.old) (members self.new) state) }
        ensures err { OnErr result (members self.new ≡ members self.old) }
        ensures full { OnErr result (room_of self.old ≤ length (members self.old)) }
        ensures room { room_of self.old ≤ room_of self.new }
    {
        if let Err(place) = self.items.binary_search(&state) {
            self.items.insert(place, state)?;
        }
        Ok(())
    }

    /// Replaces the only state by this one.
    #[inline(always)]
    pub fn put_only(&mut self, state: &State)
        requires { length (members self.old) ≡ 1 }
        ensures members { members self.new ≡ state.now ∷ [] }
        ensures room { room_of self.new ≡ room_of self.old }
    {
        self.items[0] = *state;
    }

    /// Removes all states. The room stays.
    pub fn clear(&mut self)
        ensures members { members self.new ≡ [] }
        ensures room { room_of self.new ≡ room_of self.old }
    {
        self.items.clear();
    }

    /// Becomes the set of the other's states, if there is room for them.
    pub fn copy_from(&mut self, other: &States)
        ensures members { length (members other.now) ≤ room_of self.old
            → members self.new ≡ members other.now }
        ensures room { room_of self.old ≤ room_of self.new }
    {
        self.items.clear();
        let _room = self.items.extend_from_slice(other.states());
    }

    /// Makes a set of the same states.
    pub fn copy(&self) -> Result<States, AllocError>
        ensures { IfOk result (λ states. members states ≡ members self.now) }
    {
        Ok(States {
            items: self.items.clone()?,
        })
    }
}
