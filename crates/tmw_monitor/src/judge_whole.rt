ghost use Rattle.tmw_monitor.specs.Shared.{IsVerdict, zeros};
ghost use Rattle.std.specs.Prelude.{IfOk, length, ◌^◌, ◌≤◌};
ghost use Rattle.tmw_monitor.specs.Fits.{rules_for, rules_of};

use crate::monitor::Monitor;
use std::alloc::{AllocError, Global};
use tmw_cuts::State;
use tmw_defs::{Criterion, Verdict};
use tmw_events::{Event, MOST_REGISTERS, Registers};
use tmw_options::Bounds;

/// Judges by opacity a history of at most 2^40 events whose registers all begin at 0.
pub fn judge(
    alloc: Global,
    registers: Registers,
    bounds: Bounds,
    events: &[Event],
) -> Result<Verdict, AllocError>
    requires { length events.now ≤ 2 ^ 40 }
    ensures { IfOk result (IsVerdict (rules_of registers zeros bounds) events.now) }
{
    judge_from(alloc, registers, &[0; MOST_REGISTERS], bounds, events)
}

/// Judges by opacity a history of at most 2^40 events whose registers begin with these values. Those that the run
/// does not have are to be 0.
pub fn judge_from(
    alloc: Global,
    registers: Registers,
    start: &State,
    bounds: Bounds,
    events: &[Event],
) -> Result<Verdict, AllocError>
    requires { length events.now ≤ 2 ^ 40 }
    ensures { IfOk result (IsVerdict (rules_of registers start.now bounds) events.now) }
{
    judge_for(alloc, Criterion::Opacity, registers, start, bounds, events)
}

/// Judges by this criterion a history of at most 2^40 events whose registers begin with these values. Those that the
/// run does not have are to be 0.
pub fn judge_for(
    alloc: Global,
    criterion: Criterion,
    registers: Registers,
    start: &State,
    bounds: Bounds,
    events: &[Event],
) -> Result<Verdict, AllocError>
    requires { length events.now ≤ 2 ^ 40 }
    ensures { IfOk result (IsVerdict (rules_for criterion registers start.now bounds) events.now) }
{
    let mut monitor = Monitor::for_criterion(alloc, criterion, registers, *start, bounds)?;
    for event in events {
        monitor.take(*event);
    }
    Ok(monitor.verdict())
}
