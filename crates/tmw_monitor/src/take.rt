ghost use Rattle.tmw_monitor.specs.Shared.{Criterion, End, Event, IsNext, StandsFor, begun_by, count_of, is_cut, is_quiet_by, members, transactions};
ghost use Rattle.std.specs.Prelude.{IsFalse, IsTrue, List, [], ℕ, ◌++◌, ◌+◌, ◌∷◌, ◌≡◌, ◌≤◌};
ghost use Rattle.tmw_monitor.specs.OutcomeCheck.{WeighsNext};

use crate::history_digest::HistoryDigest;
use crate::is_quiet::is_quiet;
use crate::outcome_check::OutcomeCheck;
use crate::search_or_close::{close, search};
use tmw_cuts::Move;
use tmw_defs::Criterion;
use tmw_events::{Event, Ix};

/// Takes the next event, which is this to its thread, into its window, and weighs the window's events from the outcomes at its
/// beginning.
#[inline(always)]
pub fn take_event(
    criterion: Criterion,
    kept: &mut HistoryDigest,
    cap: u8,
    event: Event,
    step: Move,
) -> OutcomeCheck
    requires room { count_of kept.old.window + begun_by step ≤ 8 }
    requires cap { cap ≤ 64 }
    ensures tells { WeighsNext criterion cap event step
        (λ events. is_quiet_by criterion (transactions events) event.thread.number event.kind)
        kept.old kept.new result }
    ensures registers { kept.new.window.registers ≡ kept.old.window.registers }
{
    if let Move::End(place) = step {
        if kept.window.is_cut_with(place) {
            return take_last(criterion, kept, cap, event, place);
        }
    }
    take_open(criterion, kept, event, step)
}

/// Takes an event at no cut.
#[inline(always)]
pub fn take_open(
    criterion: Criterion,
    kept: &mut HistoryDigest,
    event: Event,
    step: Move,
) -> OutcomeCheck
    requires room { count_of kept.old.window + begun_by step ≤ 8 }
    requires uncut { (events : List Event) → StandsFor kept.old.window events
        → IsNext kept.old.window event step → IsFalse (is_cut (events ++ event ∷ [])) }
    ensures tells { (cap : ℕ) → WeighsNext criterion cap event step
        (λ events. is_quiet_by criterion (transactions events) event.thread.number event.kind)
        kept.old kept.new result }
    ensures registers { kept.new.window.registers ≡ kept.old.window.registers }
    ensures states { members kept.new.states ≡ members kept.old.states }
{
    let quiet = is_quiet(criterion, event.kind);
    kept.window.take(event, step);
    kept.witness.follow(&kept.window, event, step);
    if quiet {
        return OutcomeCheck::Outcome;
    }
    search(criterion, kept)
}

/// Takes an event at a cut, which ends the transaction at the place.
#[inline(always)]
fn take_last(
    criterion: Criterion,
    kept: &mut HistoryDigest,
    cap: u8,
    event: Event,
    place: Ix,
) -> OutcomeCheck
    requires cap { cap ≤ 64 }
    requires cut { (events : List Event) → StandsFor kept.old.window events
        → IsNext kept.old.window event (End place) → IsTrue (is_cut (events ++ event ∷ [])) }
    ensures tells { WeighsNext criterion cap event (End place)
        (λ events. is_quiet_by criterion (transactions events) event.thread.number event.kind)
        kept.old kept.new result }
    ensures registers { kept.new.window.registers ≡ kept.old.window.registers }
{
    kept.window.end(event, place);
    kept.witness.follow(&kept.window, event, Move::End(place));
    close(criterion, kept, cap)
}
