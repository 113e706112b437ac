ghost use Rattle.std.specs.Prelude.{IfOk};
ghost use Rattle.tmw_reason.specs.DrawnSteps.{drawn_of};
ghost use Rattle.tmw_reason.specs.FindReason.{FindsAmong, FindsReason};
ghost use Rattle.tmw_reason.specs.Reasons.{ReasonLaw, ReasonTells};

use crate::candidates::drawn_candidates;
use crate::case_search::find_cases;
use crate::drawn_transaction::{DrawnTransaction, drawn_of};
use crate::reason_case::Reason;
use crate::reason_question::Question;
use std::alloc::{AllocError, Global};
use tmw_cuts::{MOST_TRANSACTIONS, State};
use tmw_defs::Criterion;
use tmw_events::Event;
use tmw_kept::{kept_of, places_of, transactions};

/// Finds the cases of a reason that speaks of these transactions alone.
fn find_among(
    alloc: Global,
    judged: &Question,
    drawn: &[DrawnTransaction],
) -> Result<Option<Reason>, AllocError>
    ensures { IfOk result (FindsAmong judged.now drawn.now) }
{
    let candidates = drawn_candidates(alloc, drawn)?;
    find_cases(alloc, judged, &candidates)
}

/// Finds out why no serial order of a window's transactions, by this criterion and from any of the states, explains
/// them. Each step holds of the whole window, and all that it says is drawn: it speaks of the transactions that have an event
/// with a mark, where the marks are those of a part, and of what these were answered and left. It is `None` where the window
/// has more than eight transactions, and where from one of the states the steps, with nothing assumed, come to no
/// contradiction. It fails only if an allocation does.
pub fn find_reason(
    criterion: Criterion,
    alloc: Global,
    states: &[State],
    events: &[Event],
    marks: &[bool],
) -> Result<Option<Reason>, AllocError>
    ensures { IfOk result
        (FindsReason criterion states.now events.now (drawn_of marks.now events.now)) }
{
    let window = transactions(alloc, events)?;
    if window.len() > MOST_TRANSACTIONS {
        return Ok(None);
    }
    let part = transactions(alloc, &kept_of(alloc, marks, events)?)?;
    let places = places_of(alloc, marks)?;
    let drawn = drawn_of(alloc, &places, &window, &part)?;
    let judged = Question {
        criterion,
        states,
        transactions: &window,
    };
    let found = find_among(alloc, &judged, &drawn)?;
    Ok(found)
}

/// Proves that the steps of a reason hold in each serial order, over all lists of transactions that begin at different
/// places, if those that are assumed do, and that steps that contradict each other leave no order. So where a reason is
/// found there is none.
pub fn law_reason()
    ensures steps { ReasonLaw }
    ensures events { ReasonTells }
{}
