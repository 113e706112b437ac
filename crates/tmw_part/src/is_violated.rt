ghost use Rattle.tmw_part.specs.Shared.{Event};
ghost use Rattle.std.specs.Prelude.{IfNone, IfOk, IfSome, IsFalse, IsTrue, List, [], ℕ, ◌++◌, ◌∷◌};
ghost use Rattle.tmw_part.specs.FindPart.{TellsIn};
ghost use Rattle.tmw_part.specs.TakeEvents.{AreTaken, AreUnfit};

use crate::whole_window::WholeWindow;
use std::alloc::AllocError;
use tmw_cuts::{MOST_TRANSACTIONS, Window};
use tmw_events::{Event, Registers};
use tmw_search::possible;

/// Takes the next event, if the events stay well-formed with it and the window has room for its transaction.
fn take_event(window: &mut Window, event: Event) -> bool
    ensures takes { IsTrue result → (registers : ℕ) (events : List Event)
        → AreTaken registers events window.old
        → AreTaken registers (events ++ event ∷ []) window.new }
    ensures refuses { IsFalse result → (registers : ℕ) (events : List Event)
        → AreTaken registers events window.old
        → AreUnfit registers (events ++ event ∷ []) }
{
    let Ok(step) = window.next(event) else {
        return false;
    };
    if step.begins() && window.count() as usize >= MOST_TRANSACTIONS {
        return false;
    }
    window.take(event, step);
    true
}

/// Takes events in order: their window, if they are well-formed and their transactions are few enough.
fn window_of(registers: Registers, events: &[Event]) -> Option<Window>
    ensures some { IfSome result (AreTaken registers.number events.now) }
    ensures none { IfNone result (AreUnfit registers.number events.now) }
{
    let mut window = Window::open(registers);
    for event in events {
        if !take_event(&mut window, *event) {
            return None;
        }
    }
    Some(window)
}

/// Tells whether these events are violated: they are well-formed, have at most eight transactions, and these have no
/// serial order from any of the states.
pub(crate) fn is_violated(search: &WholeWindow, events: &[Event]) -> Result<bool, AllocError>
    ensures { IfOk result (TellsIn search.now events.now) }
{
    let Some(window) = window_of(search.registers, events) else {
        return Ok(false);
    };
    Ok(!possible(search.criterion, search.alloc, search.states, &window)?)
}
