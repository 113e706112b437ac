ghost use Rattle.tmw_drive_command.specs.Shared.{Memory, Puts, fault_line};
ghost use Rattle.tmw_report.specs.SendText.{IsPut};
ghost use Rattle.std.specs.Prelude.{IfOk, OnOk, string_bytes, ◌++◌, ◌≡◌, ◌⊎◌};
ghost use Rattle.tmw_drive_command.specs.DriveRun.{asked_line, asks_for_trace, driven_lines, driven_status, driven_text, log_text};

use crate::drive_run::DriveRun;
use std::alloc::{AllocError, Global};
use tmw_args::RunOptions;
use tmw_counts::Summary;
use tmw_report::{FAULT_STATUS, Fault, answer_fault, report_text, status_of, summary_text};
use tmw_streams::{IoFault, Sink, put_all};
use tmw_trace::write_trace;

/// Writes what is asked for, and returns the exit status. The lines are made before anything is written: after a failed
/// allocation only that fault's line is written.
pub fn answer_driven<K: Sink>(
    alloc: Global,
    sink: &mut K,
    driven: &DriveRun,
    written: RunOptions,
) -> u8
    ensures { IsPut K.to sink.old sink.new (driven_text written driven.now)
        (driven_status driven.now) result
        ⊎ IsPut K.to sink.old sink.new (fault_line Memory) 4 result }
{
    let Ok(lines) = lines_of(alloc, driven, written) else {
        return answer_fault(sink, Fault::Memory);
    };
    match put_driven(sink, driven, asks_for_trace(written), lines.as_bytes()) {
        Ok(()) => status_of(&driven.outcome.verdict),
        Err(_) => FAULT_STATUS,
    }
}

/// Whether the log's trace is asked for, before the report or in its place.
const fn asks_for_trace(written: RunOptions) -> bool
    ensures { result ≡ asks_for_trace written }
{
    written.trace || written.trace_only
}

/// The lines that are written behind the trace.
fn lines_of(alloc: Global, driven: &DriveRun, written: RunOptions) -> Result<String, AllocError>
    ensures { IfOk result (λ lines. string_bytes lines ≡ driven_lines written driven.now) }
{
    if written.trace_only {
        return Ok(String::new(alloc));
    }
    let outcome = &driven.outcome;
    let mut lines = report_text(alloc, outcome.log.len() as u64, &outcome.verdict)?;
    add_summary(alloc, &mut lines, written.summary, &driven.summary)?;
    Ok(lines)
}

/// Adds the line of the counts, if it is asked for.
pub fn add_summary(
    alloc: Global,
    lines: &mut String,
    asked: bool,
    summary: &Summary,
) -> Result<(), AllocError>
    ensures { OnOk result
        (string_bytes lines.new ≡ string_bytes lines.old ++ asked_line asked summary.now) }
{
    if asked {
        let last = summary_text(alloc, &summary.counts)?;
        lines.push_str(last.as_str())?;
    }
    Ok(())
}

/// Writes the log's trace if it is requested, then these lines. After a failed write a beginning of these was written,
/// and not all.
pub fn put_driven<K: Sink>(
    sink: &mut K,
    driven: &DriveRun,
    trace: bool,
    lines: &[u8],
) -> Result<(), IoFault>
    ensures { Puts K.to sink.old (log_text trace driven.now ++ lines.now) sink.new result }
{
    if trace {
        write_trace(sink, &driven.header, &driven.outcome.log)?;
    }
    put_all(sink, lines)
}
