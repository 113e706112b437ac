ghost use Rattle.tmw_reason.specs.Shared.{option_to_list};
ghost use Rattle.std.specs.Prelude.{All, IfOk, IsFalse, IsTrue, OnOk, [], length, slice_get, ◌++◌, ◌+◌, ◌<◌, ◌∷◌, ◌≡◌};
ghost use Rattle.tmw_reason.specs.CaseSearch.{AreFirst, AreSaid, FindsCase, FindsCases, Grows, IsMadeCase, RefuteFrom, asked_at};
ghost use Rattle.tmw_reason.specs.DerivationSearch.{EndsNowhere};
ghost use Rattle.tmw_reason.specs.Reasons.{IsDerivationIn, is_said_for, states_at};

use crate::candidates::Candidates;
use crate::derivation_search::{find_derivations, refute_each};
use crate::prune_steps::{is_contradicted, leave_out_each, needs_assumed};
use crate::reason_case::{Derivation, Reason, ReasonCase};
use crate::reason_question::Question;
use std::alloc::{AllocError, Global};
use tmw_cuts::State;
use tmw_kept::is_among;

/// Tells whether a case is said for the state at this place.
pub(crate) fn is_said_for(place: usize, cases: &[ReasonCase]) -> bool
    ensures { result ≡ is_said_for place cases.now }
{
    cases.iter().any(|case| is_among(place, &case.states))
}

/// Adds the state at the place, if there is one.
fn push_state(chosen: &mut Vec<State>, states: &[State], place: usize) -> Result<(), AllocError>
    ensures { OnOk result
        (chosen.new.items ≡ chosen.old.items ++ option_to_list (slice_get states.now place)) }
{
    if let Some(state) = states.get(place) {
        chosen.push(*state)?;
    }
    Ok(())
}

/// Returns the states at these places.
pub(crate) fn states_at(
    alloc: Global,
    states: &[State],
    places: &[usize],
) -> Result<Vec<State>, AllocError>
    ensures { IfOk result (λ chosen. chosen.items ≡ states_at states.now places.now) }
{
    let mut chosen = Vec::new(alloc);
    for place in places {
        push_state(&mut chosen, states, *place)?;
    }
    Ok(chosen)
}

/// Tells whether the derivation is one from the states that are asked about too.
fn is_derivation(
    alloc: Global,
    judged: &Question,
    derivation: &Derivation,
) -> Result<bool, AllocError>
    ensures { IfOk result (λ is. IsTrue is → IsDerivationIn judged.now derivation.now) }
{
    let Derivation {
        assumed,
        steps,
        end,
    } = derivation;
    if !is_contradicted(judged, *assumed, steps, end)
        || !needs_assumed(judged, *assumed, steps, end)
    {
        return Ok(false);
    }
    let mut kept = steps.to_vec(alloc)?;
    let fewer = leave_out_each(alloc, judged, *assumed, &mut kept, end)?;
    Ok(!fewer)
}

/// Tells whether each derivation is one from the states that are asked about too.
fn are_derivations(
    alloc: Global,
    judged: &Question,
    derivations: &[Derivation],
) -> Result<bool, AllocError>
    ensures { IfOk result (λ are. IsTrue are → All (IsDerivationIn judged.now) derivations.now) }
{
    for one in derivations {
        if !is_derivation(alloc, judged, one)? {
            return Ok(false);
        }
    }
    Ok(true)
}

/// Tells whether the derivations refute each order from the states at these places.
fn refute_at(
    alloc: Global,
    all: &Question,
    candidates: &Candidates,
    derivations: &[Derivation],
    places: &[usize],
) -> Result<bool, AllocError>
    ensures { IfOk result (λ refute. IsTrue refute
        → RefuteFrom (asked_at all.now places.now) derivations.now) }
{
    let states = states_at(alloc, all.states, places)?;
    let judged = Question {
        criterion: all.criterion,
        states: &states,
        transactions: all.transactions,
    };
    if !are_derivations(alloc, &judged, derivations)? {
        return Ok(false);
    }
    let refute = refute_each(alloc, &judged, &candidates.sources, derivations)?;
    Ok(refute)
}

/// Adds the place to those for whose states the case is said, if none of these others is said for it, and the derivations
/// refute each order from that state too.
fn add_state(
    alloc: Global,
    all: &Question,
    candidates: &Candidates,
    case: &mut ReasonCase,
    others: &[ReasonCase],
    place: usize,
) -> Result<(), AllocError>
    requires made { IsMadeCase all.now candidates.now case.old }
    requires within { place < length all.now.states }
    ensures { OnOk result (Grows all.now candidates.now others.now case.old case.new) }
{
    if is_among(place, &case.states) || is_said_for(place, others) {
        return Ok(());
    }
    let mut places = case.states.to_vec(alloc)?;
    places.push(place)?;
    if refute_at(alloc, all, candidates, &case.derivations, &places)? {
        case.states = places;
    }
    Ok(())
}

/// Adds the places of all states for which the case can be said and none of these others is.
fn add_states(
    alloc: Global,
    all: &Question,
    candidates: &Candidates,
    case: &mut ReasonCase,
    others: &[ReasonCase],
) -> Result<(), AllocError>
    requires { IsMadeCase all.now candidates.now case.old }
    ensures { OnOk result (Grows all.now candidates.now others.now case.old case.new) }
{
    for place in 0..all.states.len() {
        add_state(alloc, all, candidates, case, others, place)?;
    }
    Ok(())
}

/// Finds a case that is said for the states at these places.
fn find_case(
    alloc: Global,
    all: &Question,
    candidates: &Candidates,
    places: Vec<usize>,
) -> Result<Option<ReasonCase>, AllocError>
    ensures { IfOk result (FindsCase all.now candidates.now places.items) }
{
    let states = states_at(alloc, all.states, &places)?;
    let judged = Question {
        criterion: all.criterion,
        states: &states,
        transactions: all.transactions,
    };
    let Some(derivations) = find_derivations(alloc, &judged, candidates)? else {
        return Ok(None);
    };
    Ok(Some(ReasonCase {
        states: places,
        derivations,
    }))
}

/// Adds a case for the state at the place, unless one is said for it; together with other states, if they fail alike. Tells
/// whether there is one.
fn add_case(
    alloc: Global,
    all: &Question,
    candidates: &Candidates,
    cases: &mut Vec<ReasonCase>,
    place: usize,
) -> Result<bool, AllocError>
    requires said { AreSaid all.now candidates.now place cases.old.items }
    requires within { place < length all.now.states }
    ensures said { IfOk result (λ found. IsTrue found
        → AreSaid all.now candidates.now (place + 1) cases.new.items) }
    ensures none { IfOk result (λ found. IsFalse found
        → EndsNowhere (asked_at all.now (place ∷ [])) candidates.now) }
{
    if is_said_for(place, cases) {
        return Ok(true);
    }
    let places = [place].to_vec(alloc)?;
    let Some(mut case) = find_case(alloc, all, candidates, places)? else {
        return Ok(false);
    };
    add_states(alloc, all, candidates, &mut case, cases)?;
    cases.push(case)?;
    Ok(true)
}

/// Finds a case for the state at each place.
fn find_each(
    alloc: Global,
    all: &Question,
    candidates: &Candidates,
) -> Result<Option<Reason>, AllocError>
    ensures { IfOk result (FindsCases all.now candidates.now) }
{
    let mut cases = Vec::new(alloc);
    for place in 0..all.states.len() {
        if !add_case(alloc, all, candidates, &mut cases, place)? {
            return Ok(None);
        }
    }
    Ok(Some(Reason { cases }))
}

/// Returns the first so many places.
fn first_places(alloc: Global, count: usize) -> Result<Vec<usize>, AllocError>
    ensures { IfOk result (λ places. AreFirst count places.items) }
{
    let mut places = Vec::new(alloc);
    for place in 0..count {
        places.push(place)?;
    }
    Ok(places)
}

/// Finds the cases of a reason: one that is said for all states together, or one for each.
pub(crate) fn find_cases(
    alloc: Global,
    all: &Question,
    candidates: &Candidates,
) -> Result<Option<Reason>, AllocError>
    ensures { IfOk result (FindsCases all.now candidates.now) }
{
    if all.states.len() > 1 {
        let places = first_places(alloc, all.states.len())?;
        if let Some(case) = find_case(alloc, all, candidates, places)? {
            let mut cases = Vec::new(alloc);
            cases.push(case)?;
            return Ok(Some(Reason { cases }));
        }
    }
    find_each(alloc, all, candidates)
}
