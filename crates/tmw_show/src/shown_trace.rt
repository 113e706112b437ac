ghost use Rattle.std.specs.Prelude.{IfOk};
ghost use Rattle.tmw_show.specs.NeededEvents.{IsNeededOf};

use crate::needed_events::NeededEvents;
use std::alloc::{AllocError, Global};
use tmw_defs::{Criterion, Verdict};
use tmw_events::Registers;
use tmw_part::find_part;
use tmw_reason::find_reason;
use tmw_window::ShownWindow;

/// What is shown of a trace whose run has so many registers.
#[derive(Drop)]
pub struct ShownTrace {
    pub registers: Registers,
    pub showing: ShownWindow,
    /// Which events of the window.
    pub needed: NeededEvents,
}

impl ShownTrace {
    ghost use Rattle.tmw_show.specs.NeededEvents.{IsShownFor};

    /// Makes what is shown of a run that was judged by this criterion. If `why` is set, a part of a violated window is
    /// found that is violated by itself, and a reason why the window is. It fails only after a failed allocation.
    pub fn new(
        alloc: Global,
        criterion: Criterion,
        why: bool,
        registers: Registers,
        showing: ShownWindow,
    ) -> Result<ShownTrace, AllocError>
        ensures { IfOk result (IsShownFor criterion why registers showing) }
    {
        let needed = needed_of(alloc, criterion, why, registers, &showing)?;
        Ok(ShownTrace {
            registers,
            showing,
            needed,
        })
    }
}

/// Which events of the window are shown.
fn needed_of(
    alloc: Global,
    criterion: Criterion,
    why: bool,
    registers: Registers,
    showing: &ShownWindow,
) -> Result<NeededEvents, AllocError>
    ensures { IfOk result (IsNeededOf criterion why registers showing.now) }
{
    if !why {
        return Ok(NeededEvents::Unasked);
    }
    match showing.verdict {
        Verdict::Violated(_at) => {
            let marks = find_part(
                criterion,
                alloc,
                registers,
                &showing.states,
                &showing.events,
            )?;
            let states = showing.states.states();
            let reason = find_reason(criterion, alloc, states, &showing.events, &marks)?;
            Ok(NeededEvents::Part { marks, reason })
        }
        _ => Ok(NeededEvents::NotViolated),
    }
}
