//! The outcomes of a window at a cut where each start forces one end at most and one is known: no order is searched for.
ghost use Rattle.tmw_search.specs.Shared.{Contains, Criterion, Event, HasRoom, Opacity, StandsFor, State, members, room_of, view};
ghost use Rattle.std.specs.Prelude.{IfSome, IsFalse, IsTrue, List, Some, length, map, slice_index, true, ℕ, ◌<◌, ◌↔◌, ◌≡◌, ◌≤◌};
ghost use Rattle.tmw_search.specs.EndStates.{EndsOf, Replaces};
ghost use Rattle.tmw_search.specs.ForcedEnds.{AddsForced, AreAlike, AreForcedEnds, IsOverlaid, ShowsNeeds, TakesNeeds};
ghost use Rattle.tmw_search.specs.LegalOrders.{ShowWriters};
ghost use Rattle.tmw_search.specs.NodeOrders.{In, effects, left_at};
ghost use Rattle.tmw_search.specs.OneEnd.{AreForced};

use crate::effects::{left_at, need_at, needed_at};
use crate::end_set::EndSet;
use crate::one_end::is_forced;
use crate::root::{statuses_of, writers_of};
use crate::states_differ::differ;
use std::mem;
use tmw_cuts::{State, States, Txn, Window, lowest};
use tmw_events::MOST_REGISTERS;

/// What the reads of transactions need of the state that their order begins from.
#[derive(Clone, Copy, Drop)]
pub struct StartNeeds {
    /// Registers that a committed transaction reads from the start, since none leaves what it reads there, as a mask.
    pub fixed: u8,
    /// What it reads there.
    pub values: State,
    /// Registers, at least those of all other reads, as a mask.
    pub open: u8,
}

/// Tells whether one of these writers of the register leaves the value there.
fn is_left(items: &[Txn], writers: u8, register: usize, value: u64) -> bool
    requires { register < 8 }
    ensures { IsTrue result ↔ ((k : ℕ) × (k < 8) × In writers k
        × (left_at (effects items.now) k register ≡ value)) }
{
    let mut left = writers;
    while left != 0 {
        let place = lowest(left);
        left -= 1 << place;
        if left_at(items, place, register) == value {
            return true;
        }
    }
    false
}

/// Takes in what the reads of a committed transaction need.
fn add_needs(items: &[Txn], writers: &[u8; MOST_REGISTERS], place: usize, needs: &mut StartNeeds)
    requires { place < 8 }
    ensures { (held : ℕ) → ShowWriters (effects items.now) held writers.now → In held place
        → TakesNeeds (effects items.now) held place needs.old needs.new }
{
    let mut left = needed_at(items, place);
    while left != 0 {
        let register = lowest(left);
        left -= 1 << register;
        let value = need_at(items, place, register);
        if is_left(items, writers[register], register, value) {
            needs.open |= 1 << register;
        } else {
            needs.fixed |= 1 << register;
            needs.values[register] = value;
        }
    }
}

/// Returns what the reads of the transactions need, of which these have committed.
fn needs_of(items: &[Txn], writers: &[u8; MOST_REGISTERS], committed: u8) -> StartNeeds
    ensures { ShowWriters (effects items.now) committed writers.now
        → ShowsNeeds (effects items.now) committed result }
{
    let mut needs = StartNeeds {
        fixed: 0,
        values: [0; MOST_REGISTERS],
        open: 0,
    };
    for place in 0..8usize {
        if committed >> place & 1 == 1 {
            add_needs(items, writers, place, &mut needs);
        } else {
            needs.open |= needed_at(items, place);
        }
    }
    needs
}

/// Returns the state with what the other holds in the registers that are written.
#[inline(always)]
fn overlaid(state: &State, other: &State, writers: &[u8; MOST_REGISTERS]) -> State
    ensures { IsOverlaid writers.now state.now other.now result }
{
    let mut result = *state;
    for register in 0..8usize {
        if writers[register] != 0 {
            result[register] = other[register];
        }
    }
    result
}

/// Tells whether the state holds the same as the other, if there is one, in the registers of the mask.
#[inline(always)]
fn is_alike(other: &Option<State>, state: &State, mask: u8) -> bool
    ensures { IsTrue result ↔ IfSome other.now (λ one. (r : ℕ) → r < 8 → In mask r
        → slice_index one r ≡ slice_index state.now r) }
{
    match other {
        Some(other) => !differ(other, state, mask),
        None => true,
    }
}

/// Adds the end of each start that meets the needs, by one that is known, if these starts hold the same in each register that
/// is open. Returns whether they do and all were added.
fn add_forced(
    starts: &[State],
    needs: &StartNeeds,
    writers: &[u8; MOST_REGISTERS],
    end: &State,
    found: &mut EndSet,
) -> bool
    ensures adds { IsTrue result → AddsForced needs.now writers.now end.now (Contains starts.now)
        (members found.old.ends) (members found.new.ends) }
    ensures alike { IsTrue result → AreAlike needs.now (Contains starts.now) }
    ensures cap { found.new.cap ≡ found.old.cap }
{
    let mut fit = None;
    for start in starts {
        if !differ(start, &needs.values, needs.fixed) {
            if !is_alike(&fit, start, needs.open) {
                return false;
            }
            fit = Some(*start);
            if !found.add(&overlaid(start, end, writers), 0) {
                return false;
            }
        }
    }
    true
}

/// Finds the outcomes, by each criterion, of committed and aborted transactions where each start forces one end at most and
/// this is an outcome by opacity. Returns whether it found them, and they are at most `cap`.
fn find_forced(items: &[Txn], starts: &[State], end: &State, cap: u8, found: &mut EndSet) -> bool
    requires few { length items.now ≤ 8 }
    requires room { cap < room_of found.old.ends }
    requires forced { AreForced (map view items.now) }
    ensures ends { IsTrue result
        → AreForcedEnds items.now starts.now end.now cap (members found.new.ends) }
    ensures cap { found.new.cap ≡ cap }
{
    found.begin(cap);
    let committed = statuses_of(items).committed;
    let writers = writers_of(items, committed);
    let needs = needs_of(items, &writers, committed);
    add_forced(starts, &needs, &writers, end, found) && found.are_few()
}

/// Replaces the states by the outcomes of the window's transactions from them where no search is needed, and tells whether it
/// did: at a cut of which an outcome is known, where each state leads to one at most. Both criteria have the same then. If
/// `known` is given it is an outcome by opacity.
pub fn replace_by_forced(
    states: &mut States,
    found: &mut EndSet,
    window: &Window,
    cap: u8,
    known: Option<State>,
) -> bool
    requires cap { cap ≤ 64 }
    requires room { HasRoom states.old }
    ensures replaces { IsTrue result → (end : State) × (known ≡ Some end)
        × ((criterion : Criterion) (events : List Event) → StandsFor window.now events
        → EndsOf Opacity states.old events end → Replaces criterion states.old cap events states.new true) }
    ensures kept { IsFalse result → members states.new ≡ members states.old }
    ensures room { HasRoom states.new }
{
    let Some(end) = known else {
        return false;
    };
    let items = window.transactions();
    if cap == 0 || !window.is_cut() || !is_forced(items) {
        return false;
    }
    if states.len() == 1 {
        states.put_only(&end);
        return true;
    }
    if !find_forced(items, states.states(), &end, cap, found) {
        return false;
    }
    mem::swap(states, &mut found.ends);
    true
}
