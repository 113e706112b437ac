ghost use Rattle.tmw_defs.specs.Opaque.{zeros};
ghost use Rattle.tmw_plain_check.specs.Verdict.{Judges, JudgesBy, Weighs};

use crate::completion::has_completion;
use crate::order::is_explained;
use crate::plain_transaction::transactions;
use crate::whole_verdict::{Whole, WholeFault};
use std::alloc::Global;
use tmw_cuts::State;
use tmw_defs::Criterion;
use tmw_events::{Event, MOST_REGISTERS, Registers};
use tmw_wellformed::Tracker;

/// Judges a history whose registers all begin at 0, by opacity. See `judge_whole_for`.
pub fn judge_whole(
    alloc: Global,
    registers: Registers,
    events: &[Event],
) -> Result<Whole, WholeFault>
    ensures { Judges registers.number zeros events.now result }
{
    judge_whole_from(alloc, registers, &[0; MOST_REGISTERS], events)
}

/// Judges a history whose registers begin with these values, by opacity. See `judge_whole_for`.
pub fn judge_whole_from(
    alloc: Global,
    registers: Registers,
    start: &State,
    events: &[Event],
) -> Result<Whole, WholeFault>
    ensures { Judges registers.number start.now events.now result }
{
    judge_whole_for(Criterion::Opacity, alloc, registers, start, events)
}

/// Judges a history whose registers begin with these values, by search over each of its prefixes, shortest first. The
/// result is of the shortest prefix that is ill-formed, has more than eight transactions, or breaks the criterion:
/// the first of these that it is. A prefix breaks opacity if it is not final-state opaque (Guerraoui and Kapalka
/// 2008, section 5), and strict serializability if it is not final-state strict. `Memory` comes only after a failed
/// allocation.
pub fn judge_whole_for(
    criterion: Criterion,
    alloc: Global,
    registers: Registers,
    start: &State,
    events: &[Event],
) -> Result<Whole, WholeFault>
    ensures { JudgesBy criterion registers.number start.now events.now result }
{
    let mut tracker = Tracker::new(registers);
    for (place, event) in events.iter().enumerate() {
        let size = place + 1;
        if tracker.step(*event).is_err() {
            return Err(WholeFault::IllFormed(size as u64));
        }
        if !has_legal_order(criterion, alloc, start, &events[..size])? {
            return Ok(Whole::Violated(size as u64));
        }
    }
    match criterion {
        Criterion::Opacity => Ok(Whole::Opaque),
        Criterion::Strict => Ok(Whole::Strict),
    }
}

/// Whether the transactions of a history, or where strict serializability is the criterion those that some completion of it
/// holds, have a legal serial order from the start; a fault where there are more than eight.
fn has_legal_order(
    criterion: Criterion,
    alloc: Global,
    start: &State,
    events: &[Event],
) -> Result<bool, WholeFault>
    ensures { Weighs criterion start.now events.now result }
{
    let list = transactions(alloc, events)?;
    if list.len() > 8 {
        return Err(WholeFault::Ninth(events.len() as u64));
    }
    match criterion {
        Criterion::Opacity => Ok(is_explained(alloc, &list, start)?),
        Criterion::Strict => Ok(has_completion(alloc, &list, start)?),
    }
}
