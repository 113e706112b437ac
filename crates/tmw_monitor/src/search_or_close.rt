ghost use Rattle.tmw_monitor.specs.Shared.{Criterion, EndsOf, Event, HasRoom, Opacity, StandsFor, State, Strict, Witnesses, is_cut, members, views_of};
ghost use Rattle.std.specs.Prelude.{Bool, IsFalse, IsTrue, List, [], length, ℕ, ◌≡◌, ◌≤◌};
ghost use Rattle.tmw_monitor.specs.declared.outcome_check.OutcomeCheck.TheVariants.{Outcome};
ghost use Rattle.tmw_monitor.specs.OutcomeCheck.{Tells, TellsEnds};

use crate::history_digest::HistoryDigest;
use crate::outcome_check::OutcomeCheck;
use tmw_cuts::States;
use tmw_defs::Criterion;
use tmw_search::{EndSet, ends_alike, replace_by_forced, replace_by_outcomes};
use tmw_witness::Witness;

/// Weighs the events of a window at no cut, from the outcomes at its beginning. A serial order is looked for if none is known,
/// and is kept if it is one of all transactions.
pub fn search(criterion: Criterion, kept: &mut HistoryDigest) -> OutcomeCheck
    ensures tells { (cap : ℕ) (quiet : Bool) (events : List Event)
        → StandsFor kept.old.window events → IsFalse (is_cut events)
        → Witnesses (members kept.old.states) (views_of events) kept.old.witness
        → Tells criterion kept.old.states cap quiet events kept.new result }
    ensures registers { kept.new.window.registers ≡ kept.old.window.registers }
    ensures states { members kept.new.states ≡ members kept.old.states }
{
    if kept.witness.is_known() {
        return OutcomeCheck::Outcome;
    }
    if kept.witness.finds(criterion, &kept.states, &kept.window) {
        OutcomeCheck::Outcome
    } else {
        OutcomeCheck::NoOutcome
    }
}

/// Weighs the events of a window at a cut, from the outcomes at its beginning. If there are outcomes at the cut, at most `cap`, the set
/// becomes theirs and the window is cleared, and else the window stays.
pub fn close(criterion: Criterion, kept: &mut HistoryDigest, cap: u8) -> OutcomeCheck
    requires { cap ≤ 64 }
    ensures tells { (quiet : Bool) (events : List Event)
        → StandsFor kept.old.window events → IsTrue (is_cut events)
        → Witnesses (members kept.old.states) (views_of events) kept.old.witness
        → Tells criterion kept.old.states cap quiet events kept.new result }
    ensures registers { kept.new.window.registers ≡ kept.old.window.registers }
{
    if close_forced(kept, cap) {
        return OutcomeCheck::Outcome;
    }
    close_searched(criterion, kept, cap)
}

/// Closes a window at a cut if its outcomes are known without a search: by each criterion they are the same then. Returns
/// whether it did.
pub fn close_forced(kept: &mut HistoryDigest, cap: u8) -> bool
    requires { cap ≤ 64 }
    ensures tells { IsTrue result → (criterion : Criterion) (quiet : Bool) (events : List Event)
        → StandsFor kept.old.window events → IsTrue (is_cut events)
        → Witnesses (members kept.old.states) (views_of events) kept.old.witness
        → Tells criterion kept.old.states cap quiet events kept.new Outcome }
    ensures states { IsFalse result → members kept.new.states ≡ members kept.old.states }
    ensures window { IsFalse result → kept.new.window ≡ kept.old.window }
    ensures witness { IsFalse result → kept.new.witness ≡ kept.old.witness }
    ensures registers { kept.new.window.registers ≡ kept.old.window.registers }
{
    let known = kept.witness.known_end().copied();
    let (states, found) = (&mut kept.states, &mut kept.found);
    if !replace_by_forced(states, found, &kept.window, cap, known) {
        return false;
    }
    begin_window(kept);
    true
}

/// Weighs the events of a window at a cut by a search for its outcomes.
fn close_searched(criterion: Criterion, kept: &mut HistoryDigest, cap: u8) -> OutcomeCheck
    requires { cap ≤ 64 }
    ensures tells { (quiet : Bool) (events : List Event)
        → StandsFor kept.old.window events → IsTrue (is_cut events)
        → Tells criterion kept.old.states cap quiet events kept.new result }
    ensures registers { kept.new.window.registers ≡ kept.old.window.registers }
{
    let (states, found) = (&mut kept.states, &mut kept.found);
    if !replace_by_outcomes(criterion, states, found, &kept.window, cap) {
        return OutcomeCheck::TooMany;
    }
    if kept.states.is_empty() {
        return OutcomeCheck::NoOutcome;
    }
    begin_window(kept);
    OutcomeCheck::Outcome
}

/// Weighs by strict serializability the events of a window at a cut, whose outcomes at its beginning `kept` has. The set becomes that of
/// the outcomes at the cut, if these are at most `cap`.
pub fn close_strictly(
    kept: &HistoryDigest,
    states: &mut States,
    found: &mut EndSet,
    cap: u8,
) -> OutcomeCheck
    requires cap { cap ≤ 64 }
    requires room { HasRoom states.old }
    ensures tells { (events : List Event) → StandsFor kept.now.window events
        → length (members kept.now.states) ≤ 65
        → TellsEnds Strict kept.now.states cap events states.new result }
    ensures room { HasRoom states.new }
{
    states.copy_from(&kept.states);
    if !replace_by_outcomes(Criterion::Strict, states, found, &kept.window, cap) {
        return OutcomeCheck::TooMany;
    }
    if states.is_empty() {
        return OutcomeCheck::NoOutcome;
    }
    OutcomeCheck::Outcome
}

/// Returns `true` only if opacity has all these outcomes, which strict serializability has at a cut: if there is one alone and opacity has
/// one, or if what has not committed can come first.
fn has_all(kept: &HistoryDigest, outcomes: &States) -> bool
    ensures { IsTrue result → (cap : ℕ) (events : List Event) → StandsFor kept.now.window events
        → IsTrue (is_cut events) → Witnesses (members kept.now.states) (views_of events) kept.now.witness
        → TellsEnds Strict kept.now.states cap events outcomes.now Outcome
        → (end : State) → EndsOf Strict kept.now.states events end
        → EndsOf Opacity kept.now.states events end }
{
    if kept.witness.is_known() && outcomes.len() == 1 {
        return true;
    }
    ends_alike(&kept.states, &kept.window)
}

/// Weighs by opacity the events of a window at a cut, where this was found of them by strict serializability, with these outcomes. If
/// there are outcomes at the cut, at most `cap`, the set becomes theirs and the window is cleared, and else the window stays.
pub fn close_opaquely(
    kept: &mut HistoryDigest,
    outcomes: &States,
    strictly: OutcomeCheck,
    cap: u8,
) -> OutcomeCheck
    requires cap { cap ≤ 64 }
    ensures tells { (quiet : Bool) (events : List Event)
        → StandsFor kept.old.window events → IsTrue (is_cut events)
        → Witnesses (members kept.old.states) (views_of events) kept.old.witness
        → TellsEnds Strict kept.old.states cap events outcomes.now strictly
        → Tells Opacity kept.old.states cap quiet events kept.new result }
    ensures registers { kept.new.window.registers ≡ kept.old.window.registers }
{
    if let OutcomeCheck::NoOutcome = strictly {
        return strictly;
    }
    if let OutcomeCheck::Outcome = strictly {
        if has_all(kept, outcomes) {
            kept.states.copy_from(outcomes);
            begin_window(kept);
            return strictly;
        }
    }
    close_searched(Criterion::Opacity, kept, cap)
}

/// Begins a window of no event behind one that is at a cut, from the states.
fn begin_window(kept: &mut HistoryDigest)
    ensures states { members kept.new.states ≡ members kept.old.states }
    ensures stands { (events : List Event) → StandsFor kept.old.window events
        → IsTrue (is_cut events) → StandsFor kept.new.window [] }
    ensures witness { Witnesses (members kept.new.states) [] kept.new.witness }
    ensures registers { kept.new.window.registers ≡ kept.old.window.registers }
{
    begin_again(&mut kept.witness, &kept.states);
    kept.window.clear();
}

/// Begins with a window without a transaction, from the first of these states.
pub fn begin_again(witness: &mut Witness, starts: &States)
    ensures { Witnesses (members starts.now) [] witness.new }
{
    match starts.get(0) {
        Some(start) => witness.restart(&start),
        None => witness.forget(),
    }
}
