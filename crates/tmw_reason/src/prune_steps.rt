ghost use Rattle.std.specs.Prelude.{IfOk, IsFalse, IsTrue, length, remove, ◌<◌, ◌↔◌, ◌≡◌};
ghost use Rattle.tmw_reason.specs.Reasons.{AssumesNeededIn, IsContradictedIn, IsNeededEachIn};
ghost use Rattle.tmw_reason.specs.DerivationSearch.{AreAmong, DerivesIn};

use crate::reason_question::Question;
use crate::reason_step::{Contradiction, ReasonStep};
use crate::step_rules::{contradicts, follows};
use std::alloc::{AllocError, Global};

/// Whether each of the steps but those that are assumed follows from those before it.
fn derives(judged: &Question, assumed: usize, steps: &[ReasonStep]) -> bool
    ensures { IsTrue result ↔ DerivesIn judged.now assumed steps.now }
{
    for (place, step) in steps.iter().enumerate() {
        if assumed <= place && !follows(judged, &steps[..place], step) {
            return false;
        }
    }
    true
}

/// Whether the steps, of which so many are assumed, come to this contradiction.
pub(crate) fn is_contradicted(
    judged: &Question,
    assumed: usize,
    steps: &[ReasonStep],
    end: &Contradiction,
) -> bool
    ensures { IsTrue result ↔ IsContradictedIn judged.now assumed end.now steps.now }
{
    contradicts(judged, steps, end) && derives(judged, assumed, steps)
}

/// Leaves out the step at this place, if the rest comes to the contradiction too. Returns whether it was left out.
fn leave_out(
    alloc: Global,
    judged: &Question,
    assumed: usize,
    steps: &mut Vec<ReasonStep>,
    end: &Contradiction,
    place: usize,
) -> Result<bool, AllocError>
    requires { place < length steps.old.items }
    ensures among { IfOk result (λ _. AreAmong steps.old.items steps.new.items) }
    ensures out { IfOk result (λ out. IsTrue out → steps.new.items ≡ remove steps.old.items place
        × IsContradictedIn judged.now assumed end.now steps.new.items) }
    ensures stays { let rest = remove steps.old.items place in
        IfOk result (λ out. IsFalse out → steps.new.items ≡ steps.old.items
        × (IsContradictedIn judged.now assumed end.now rest → ⊥)) }
{
    let mut rest = steps.to_vec(alloc)?;
    let _step = rest.remove(place);
    if is_contradicted(judged, assumed, &rest, end) {
        *steps = rest;
        return Ok(true);
    }
    Ok(false)
}

/// Leaves out each step that the rest does without, from the last to the first that is not assumed. Returns whether one was
/// left out.
pub(crate) fn leave_out_each(
    alloc: Global,
    judged: &Question,
    assumed: usize,
    steps: &mut Vec<ReasonStep>,
    end: &Contradiction,
) -> Result<bool, AllocError>
    ensures reason { IfOk result (λ out. IsContradictedIn judged.now assumed end.now steps.old.items
        → IsContradictedIn judged.now assumed end.now steps.new.items) }
    ensures among { IfOk result (λ _. AreAmong steps.old.items steps.new.items) }
    ensures fewer { IfOk result (λ out. IsTrue out
        → length steps.new.items < length steps.old.items) }
    ensures stays { IfOk result (λ out. IsFalse out → steps.new.items ≡ steps.old.items) }
    ensures needed { IfOk result (λ out. IsFalse out
        → IsNeededEachIn judged.now assumed end.now steps.new.items) }
{
    let mut out = false;
    let mut place = steps.len();
    while place > assumed {
        place -= 1;
        if leave_out(alloc, judged, assumed, steps, end, place)? {
            out = true;
        }
    }
    Ok(out)
}

/// Tells whether the steps don't come to the contradiction without the one that is assumed, if there is one.
pub(crate) fn needs_assumed(
    judged: &Question,
    assumed: usize,
    steps: &[ReasonStep],
    end: &Contradiction,
) -> bool
    ensures needed { IsTrue result → AssumesNeededIn judged.now assumed end.now steps.now }
    ensures none { assumed ≡ 0 → IsTrue result }
{
    match steps {
        [_first, rest @ ..] if assumed == 1 => !is_contradicted(judged, 0, rest, end),
        _ => assumed == 0,
    }
}

/// Returns of the steps, which come to the contradiction, those that are assumed and those that are needed.
pub(crate) fn prune(
    alloc: Global,
    judged: &Question,
    assumed: usize,
    steps: &[ReasonStep],
    end: &Contradiction,
) -> Result<Vec<ReasonStep>, AllocError>
    requires { IsContradictedIn judged.now assumed end.now steps.now }
    ensures is { IfOk result (λ kept. IsContradictedIn judged.now assumed end.now kept.items) }
    ensures among { IfOk result (λ kept. AreAmong steps.now kept.items) }
    ensures needed { IfOk result (λ kept. IsNeededEachIn judged.now assumed end.now kept.items) }
{
    let mut kept = steps.to_vec(alloc)?;
    let mut more = true;
    while more {
        more = leave_out_each(alloc, judged, assumed, &mut kept, end)?;
    }
    Ok(kept)
}
