ghost use Rattle.tmw_reason.specs.Shared.{Contains, list_any};
ghost use Rattle.std.specs.Prelude.{All, IfOk, find, length, ◌≡◌};
ghost use Rattle.tmw_reason.specs.ReasonSteps.{contradicts};
ghost use Rattle.tmw_reason.specs.DerivationSearch.{Closes, is_news};

use crate::candidates::Candidates;
use crate::reason_question::Question;
use crate::reason_step::{Contradiction, ReasonStep};
use crate::step_facts::tells;
use crate::step_rules::{contradicts, follows};
use std::alloc::AllocError;

/// Whether the step follows from these, and isn't told by them.
fn is_news(judged: &Question, steps: &[ReasonStep], step: &ReasonStep) -> bool
    ensures { result ≡ is_news judged.now steps.now step.now }
{
    !tells(steps, step) && follows(judged, steps, step)
}

/// Finds the first of the candidates that follows from the steps and isn't told by them.
fn find_step(
    judged: &Question,
    steps: &[ReasonStep],
    candidates: &[ReasonStep],
) -> Option<ReasonStep>
    ensures { result ≡ find (is_news judged.now steps.now) candidates.now }
{
    let mut rest = candidates;
    while let [candidate, more @ ..] = rest {
        if is_news(judged, steps, candidate) {
            return Some(*candidate);
        }
        rest = more;
    }
    None
}

/// Whether the steps come to one of these contradictions.
fn comes_to_one(judged: &Question, steps: &[ReasonStep], ends: &[Contradiction]) -> bool
    ensures { let w = judged.now in result ≡ list_any
        (contradicts w.criterion w.states w.transactions steps.now) ends.now }
{
    ends.iter().any(|end| contradicts(judged, steps, end))
}

/// Adds to the steps, which are assumed, candidates that follow, until they come to a contradiction or none follows.
pub(crate) fn close(
    judged: &Question,
    candidates: &Candidates,
    assumed: Vec<ReasonStep>,
) -> Result<Vec<ReasonStep>, AllocError>
    requires { All (Contains candidates.now.steps.items) assumed.items }
    ensures { IfOk result (λ steps.
        Closes judged.now candidates.now (length assumed.items) steps.items) }
{
    let mut steps = assumed;
    while !comes_to_one(judged, &steps, &candidates.ends) {
        let Some(step) = find_step(judged, &steps, &candidates.steps) else {
            break;
        };
        steps.push(step)?;
    }
    Ok(steps)
}
