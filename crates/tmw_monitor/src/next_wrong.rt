ghost use Rattle.tmw_monitor.specs.Shared.{Event, Rules};
ghost use Rattle.std.specs.Prelude.{List, None, [], length, ◌++◌, ◌+◌, ◌∷◌, ◌≡◌};
ghost use Rattle.tmw_monitor.specs.BrokenRule.{TellsFollowed};
ghost use Rattle.tmw_monitor.specs.Fits.{Keeps, TellsWrong};

use crate::broken_rule::{BrokenRule, follow};
use crate::history_digest::HistoryDigest;
use crate::take::take_event;
use tmw_defs::{Criterion, Verdict, Why};
use tmw_events::Event;
use tmw_options::Bounds;

/// Takes the next event, after which the history has length `at`, and returns the verdict if something is wrong with
/// it. Nothing was wrong before it, so `broken` told no event. If nothing is, what is kept is then that of the longer history.
#[inline(always)]
pub fn next_wrong(
    criterion: Criterion,
    kept: &mut HistoryDigest,
    bounds: Bounds,
    at: u64,
    event: Event,
    broken: &mut Option<BrokenRule>,
) -> Option<Verdict>
    ensures tells { (rules : Rules) (history : List Event)
        → criterion ≡ rules.criterion → bounds.window ≡ rules.window → bounds.states ≡ rules.states
        → at ≡ length history + 1 → Keeps rules history kept.old
        → TellsWrong rules (history ++ event ∷ []) kept.new result }
    ensures breaks { (rules : Rules) (history : List Event)
        → criterion ≡ rules.criterion → bounds.window ≡ rules.window → bounds.states ≡ rules.states
        → at ≡ length history + 1 → broken.old ≡ None → Keeps rules history kept.old
        → TellsFollowed rules.registers (history ++ event ∷ []) kept.new.window broken.new }
    ensures whole { result ≡ None → broken.new ≡ broken.old }
{
    let step = match kept.window.next(event) {
        Ok(step) => step,
        Err(rule) => {
            *broken = Some(BrokenRule { at, rule });
            return Some(Verdict::Malformed(at));
        }
    };
    if step.begins() && kept.window.count() >= bounds.window {
        follow(&mut kept.window, broken, at, event);
        return Some(Verdict::Undecided(at, Why::Transactions));
    }
    take_event(criterion, kept, bounds.states, event, step).wrong(at)
}
