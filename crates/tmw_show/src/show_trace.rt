ghost use Rattle.tmw_show.specs.Shared.{Memory, RemarksFault, failures_after_answer};
ghost use Rattle.std.specs.Prelude.{IfErr, IfOk, List, ℕ, ◌≡◌};
ghost use Rattle.tmw_show.specs.NeededEvents.{IsShownFor};
ghost use Rattle.tmw_streams.specs.Transfers.{Tells};
ghost use Rattle.tmw_show.specs.RunShow.{AnswersShow};

use crate::shown_trace::ShownTrace;
use std::alloc::Global;
use tmw_events::Registers;
use tmw_lines::{Reached, give_items};
use tmw_options::ShowOptions;
use tmw_report::{Fault, quote_fault};
use tmw_streams::{Sink, Source};
use tmw_trace::TraceLines;
use tmw_window::{LastWindow, ShownWindow};

/// Reads a trace up to the source's end, and judges each event as its line is read, as these options say. No event
/// before the last window is kept. After a failed allocation at most 4,096 bytes were read after the last
/// event's line. The sink for errors is told which line
/// has a fault.
pub fn show_trace<S: Source, E: Sink>(
    alloc: Global,
    source: &mut S,
    errors: &mut E,
    options: ShowOptions,
) -> Result<ShownTrace, Fault>
    ensures right { (bytes : List ℕ) × Tells S.from source.old bytes source.new
        × AnswersShow options (S.from.ended source.new) bytes result
        × RemarksFault E.to bytes result errors.old errors.new }
    ensures failures { S.from.failures source.new ≡ failures_after_answer result
        (S.from.failures source.old) }
{
    let mut lines = TraceLines::new();
    let header = match lines.header(source) {
        Ok(header) => header,
        Err(fault) => return Err(quote_fault(errors, &lines, fault)),
    };
    let Ok(mut window) = LastWindow::new(
        alloc,
        options.criterion,
        header.registers,
        header.initial,
        options.bounds,
    ) else {
        return Err(Fault::Memory);
    };
    match give_items(&mut lines, source, &mut window) {
        Ok(Reached::End) => explained(alloc, options, header.registers, window.finish()),
        Ok(Reached::Stop) => Err(Fault::Memory),
        Err(fault) => Err(quote_fault(errors, &lines, fault)),
    }
}

/// What is shown of a run that was judged so. Never `Io`.
fn explained(
    alloc: Global,
    options: ShowOptions,
    registers: Registers,
    showing: ShownWindow,
) -> Result<ShownTrace, Fault>
    ensures shown { IfOk result (λ shown. IsShownFor options.criterion options.why registers showing shown) }
    ensures memory { IfErr result (λ fault. fault ≡ Memory) }
{
    match ShownTrace::new(alloc, options.criterion, options.why, registers, showing) {
        Ok(shown) => Ok(shown),
        Err(_) => Err(Fault::Memory),
    }
}
