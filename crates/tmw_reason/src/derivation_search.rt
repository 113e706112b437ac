ghost use Rattle.tmw_reason.specs.Shared.{Contains};
ghost use Rattle.std.specs.Prelude.{All, IfNone, IfOk, IfSome, IsFalse, IsTrue, Some, length, map, ◌≡◌, ◌⊎◌};
ghost use Rattle.tmw_reason.specs.DerivationSearch.{AreMade, DerivesIn, EndsNowhere, IsMade, IsMadeFrom, contradicts_in};
ghost use Rattle.tmw_reason.specs.ReasonSteps.{from_else};
ghost use Rattle.tmw_reason.specs.Reasons.{RefuteEachIn, assume_each, assumes, is_one, is_split, start_of, writers_of};

use crate::candidates::Candidates;
use crate::prune_steps::{needs_assumed, prune};
use crate::reason_case::Derivation;
use crate::reason_question::Question;
use crate::reason_step::{ReasonStep, ValueSource};
use crate::step_closure::close;
use crate::step_facts::gives;
use crate::step_rules::{contradicts, is_asked, may_come_from};
use std::alloc::{AllocError, Global};

/// The shorter of both, or the first.
fn shorter(best: Option<Derivation>, other: Derivation) -> Derivation
    ensures { (best ≡ Some result) ⊎ (result ≡ other) }
{
    match best {
        Some(first) if first.steps.len() <= other.steps.len() => first,
        _ => other,
    }
}

/// Finds the shortest derivation of one of the contradictions by the steps, of which so many are assumed.
fn find_shortest(
    alloc: Global,
    judged: &Question,
    candidates: &Candidates,
    assumed: usize,
    steps: &[ReasonStep],
) -> Result<Option<Derivation>, AllocError>
    requires are { All (Contains candidates.now.steps.items) steps.now }
    requires derives { DerivesIn judged.now assumed steps.now }
    ensures made { IfOk result (λ found. IfSome found
        (IsMadeFrom judged.now candidates.now assumed)) }
    ensures none { assumed ≡ 0 → IfOk result (λ found. IfNone found
        (All (λ end. IsFalse (contradicts_in judged.now steps.now end)) candidates.now.ends.items)) }
{
    let mut best = None;
    for end in &candidates.ends {
        if contradicts(judged, steps, end) {
            let kept = prune(alloc, judged, assumed, steps, end)?;
            if needs_assumed(judged, assumed, &kept, end) {
                let other = Derivation {
                    assumed,
                    steps: kept,
                    end: *end,
                };
                best = Some(shorter(best, other));
            }
        }
    }
    Ok(best)
}

/// Finds a derivation that assumes these steps.
fn find_derivation(
    alloc: Global,
    judged: &Question,
    candidates: &Candidates,
    assumed: Vec<ReasonStep>,
) -> Result<Option<Derivation>, AllocError>
    requires { All (Contains candidates.now.steps.items) assumed.items }
    ensures made { IfOk result (λ found. IfSome found
        (IsMadeFrom judged.now candidates.now (length assumed.items))) }
    ensures none { IfOk result (λ found. length assumed.items ≡ 0 → IfNone found
        (EndsNowhere judged.now candidates.now)) }
{
    let first = assumed.len();
    let steps = close(judged, candidates, assumed)?;
    find_shortest(alloc, judged, candidates, first, &steps)
}

/// Whether the derivation assumes that this is a value's source.
fn assumes(source: &ValueSource, derivation: &Derivation) -> bool
    ensures { result ≡ assumes source.now derivation.now }
{
    derivation.assumed == 1
        && derivation
            .steps
            .first()
            .is_some_and(|step| gives(source, step))
}

/// Returns the start, if the value may come from there.
fn start_of(
    alloc: Global,
    judged: &Question,
    source: &ValueSource,
) -> Result<Vec<Option<usize>>, AllocError>
    ensures { let w = judged.now in IfOk result (λ start. start.items
        ≡ start_of w.states w.transactions source.now) }
{
    let mut start = Vec::new(alloc);
    if may_come_from(judged, source, None) {
        start.push(None)?;
    }
    Ok(start)
}

/// Returns the transactions from which the value may come.
fn writers_of(
    alloc: Global,
    judged: &Question,
    source: &ValueSource,
) -> Result<Vec<Option<usize>>, AllocError>
    ensures { let w = judged.now in IfOk result (λ writers. writers.items
        ≡ map (λ a. Some a) (writers_of w.states w.transactions source.now)) }
{
    (0..judged.transactions.len())
        .filter(|place| may_come_from(judged, source, Some(*place)))
        .map(Some)
        .collect(alloc)
}

/// Whether the derivation assumes that the source's value comes from this writer, or from the start.
fn assumes_from(source: &ValueSource, writer: Option<usize>, derivation: &Derivation) -> bool
    ensures { result ≡ assumes (from_else source.now writer) derivation.now }
{
    let other = ValueSource { writer, ..*source };
    assumes(&other, derivation)
}

/// Whether each derivation assumes that the value comes from one of these, in their order.
fn assume_each(source: &ValueSource, origins: &[Option<usize>], derivations: &[Derivation]) -> bool
    ensures { result ≡ assume_each source.now origins.now derivations.now }
{
    origins
        .iter()
        .zip(derivations)
        .all(|pair| assumes_from(source, *pair.0, pair.1))
}

/// Whether the derivations are the cases of where the source's value comes from.
fn is_split(
    alloc: Global,
    judged: &Question,
    derivations: &[Derivation],
    source: &ValueSource,
) -> Result<bool, AllocError>
    ensures { let w = judged.now in IfOk result (λ is. is
        ≡ is_split w.criterion w.states w.transactions derivations.now source.now) }
{
    let mut origins = start_of(alloc, judged, source)?;
    let writers = writers_of(alloc, judged, source)?;
    origins.extend_from_slice(&writers)?;
    Ok(
        derivations.len() > 1
            && derivations.len() == origins.len()
            && is_asked(judged, &[], source)
            && assume_each(source, &origins, derivations),
    )
}

/// Whether the only derivation assumes nothing.
fn is_one(derivations: &[Derivation]) -> bool
    ensures { result ≡ is_one derivations.now }
{
    match derivations {
        [one] => one.assumed == 0,
        _ => false,
    }
}

/// Tells whether together the derivations refute each order: the only one assumes nothing, or they are the cases of where
/// one of these values comes from.
pub(crate) fn refute_each(
    alloc: Global,
    judged: &Question,
    sources: &[ValueSource],
    derivations: &[Derivation],
) -> Result<bool, AllocError>
    ensures { IfOk result (λ refute. IsTrue refute → RefuteEachIn judged.now derivations.now) }
{
    if is_one(derivations) {
        return Ok(true);
    }
    for source in sources {
        if is_split(alloc, judged, derivations, source)? {
            return Ok(true);
        }
    }
    Ok(false)
}

/// Whether the step says that the value which this source is of comes from one that it may have.
fn is_case(judged: &Question, source: &ValueSource, step: &ReasonStep) -> bool {
    match step {
        ReasonStep::From(other) => {
            source.reader == other.reader
                && source.register == other.register
                && may_come_from(judged, other, other.writer)
        }
        _ => false,
    }
}

/// Returns a derivation for each source that the value may have, up to one for which there is none.
fn cases(
    alloc: Global,
    judged: &Question,
    candidates: &Candidates,
    source: &ValueSource,
) -> Result<Vec<Derivation>, AllocError>
    ensures { IfOk result (λ found. All (IsMade judged.now candidates.now) found.items) }
{
    let mut found = Vec::new(alloc);
    for step in &candidates.steps {
        if is_case(judged, source, step) {
            let assumed = [*step].to_vec(alloc)?;
            let Some(one) = find_derivation(alloc, judged, candidates, assumed)? else {
                return Ok(found);
            };
            found.push(one)?;
        }
    }
    Ok(found)
}

/// Finds derivations that are the cases of where a value comes from.
fn find_cases(
    alloc: Global,
    judged: &Question,
    candidates: &Candidates,
) -> Result<Option<Vec<Derivation>>, AllocError>
    ensures { IfOk result (λ found. IfSome found
        (λ derivations. AreMade judged.now candidates.now derivations.items)) }
{
    for source in &candidates.sources {
        if source.writer.is_none() {
            let found = cases(alloc, judged, candidates, source)?;
            if is_split(alloc, judged, &found, source)? {
                return Ok(Some(found));
            }
        }
    }
    Ok(None)
}

/// Finds derivations that refute each order: one that assumes nothing, or the cases of where a value comes from.
pub(crate) fn find_derivations(
    alloc: Global,
    judged: &Question,
    candidates: &Candidates,
) -> Result<Option<Vec<Derivation>>, AllocError>
    ensures made { IfOk result (λ found. IfSome found
        (λ derivations. AreMade judged.now candidates.now derivations.items)) }
    ensures none { IfOk result (λ found. IfNone found (EndsNowhere judged.now candidates.now)) }
{
    let Some(one) = find_derivation(alloc, judged, candidates, Vec::new(alloc))? else {
        return find_cases(alloc, judged, candidates);
    };
    let mut found = Vec::new(alloc);
    found.push(one)?;
    Ok(Some(found))
}
