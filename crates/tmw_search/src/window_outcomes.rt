ghost use Rattle.tmw_search.specs.Shared.{Event, HasRoom, StandsFor, room_of};
ghost use Rattle.std.specs.Prelude.{IfOk, List, ◌<◌, ◌≡◌, ◌≤◌};
ghost use Rattle.tmw_search.specs.EndStates.{TellsEnd, AreEnds, Replaces, told};

use crate::completion_ends::find_ends;
use crate::end_set::EndSet;
use crate::end_states::EndStates;
use crate::find_serial_order::find_order;
use std::alloc::{AllocError, Global};
use std::mem;
use tmw_cuts::{States, Window};
use tmw_defs::Criterion;

/// Tells whether the window's transactions have a legal serial order, for some completion, from one of the states. By
/// opacity the order has all of them, by strict serializability those that the completion holds.
pub fn possible(
    criterion: Criterion,
    _alloc: Global,
    states: &States,
    window: &Window,
) -> Result<bool, AllocError>
    ensures { IfOk result (TellsEnd criterion states.now window.now) }
{
    Ok(find_order(criterion, states, window).is_some())
}

/// Finds the states in which the window's transactions may end, over all legal serial orders and completions, from
/// one of the states. They are `Few` if they are at most `cap`.
pub fn outcomes(
    criterion: Criterion,
    alloc: Global,
    states: &States,
    window: &Window,
    cap: u8,
) -> Result<EndStates, AllocError>
    ensures { IfOk result (AreEnds criterion states.now window.now cap) }
{
    let mut found = EndSet::none(alloc, cap)?;
    if find_outcomes(criterion, states, window, cap, &mut found) {
        Ok(EndStates::Few(found.ends))
    } else {
        Ok(EndStates::Many)
    }
}

/// Finds the states in which the window's transactions may end, from one of the states. Returns whether they are at
/// most `cap`.
fn find_outcomes(
    criterion: Criterion,
    states: &States,
    window: &Window,
    cap: u8,
    found: &mut EndSet,
) -> bool
    requires { cap < room_of found.old.ends }
    ensures ends { AreEnds criterion states.now window.now cap (told result found.new.ends) }
    ensures cap { found.new.cap ≡ cap }
{
    find_ends(
        criterion,
        window.transactions(),
        states.states(),
        cap,
        found,
    )
}

/// Replaces the states by the outcomes of the window's transactions from them, if these are at most `cap`, and tells
/// whether they are.
pub fn replace_by_outcomes(
    criterion: Criterion,
    states: &mut States,
    found: &mut EndSet,
    window: &Window,
    cap: u8,
) -> bool
    requires cap { cap ≤ 64 }
    requires room { HasRoom states.old }
    ensures replaces { (events : List Event) → StandsFor window.now events
        → Replaces criterion states.old cap events states.new result }
    ensures room { HasRoom states.new }
{
    if !find_outcomes(criterion, states, window, cap, found) {
        return false;
    }
    mem::swap(states, &mut found.ends);
    true
}
