//! The first event that fits no run.
ghost use Rattle.tmw_monitor.specs.Shared.{Event, views};
ghost use Rattle.std.specs.Prelude.{List, [], length, ℕ, ◌++◌, ◌+◌, ◌∷◌, ◌≡◌};
ghost use Rattle.tmw_monitor.specs.BrokenRule.{TellsFollowed};

use tmw_cuts::Window;
use tmw_events::Event;
use tmw_wellformed::Malformed;

/// The first event with which a history is ill-formed: its number, from 1 on, and the first of the rules that it breaks.
#[derive(Clone, Copy, PartialEq, Eq, Debug)]
pub struct BrokenRule {
    pub at: u64,
    pub rule: Malformed,
}

/// Goes on to where the threads are after the event of this number, unless one before it was refused. A refusal is kept.
pub(crate) fn follow(window: &mut Window, broken: &mut Option<BrokenRule>, at: u64, event: Event)
    ensures tells { (registers : ℕ) (history : List Event) → at ≡ length history + 1
        → TellsFollowed registers history window.old broken.old
        → TellsFollowed registers (history ++ event ∷ []) window.new broken.new }
    ensures shown { views window.new ≡ views window.old }
{
    if broken.is_some() {
        return;
    }
    if let Err(rule) = window.follow(event) {
        *broken = Some(BrokenRule { at, rule });
    }
}
