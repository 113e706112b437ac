ghost use Rattle.tmw_command.specs.Shared.{IsPut, Memory, Remarks, fault_line, is_open, nothing_shown_if};
ghost use Rattle.std.specs.Prelude.{IfOk, string_bytes, ◌&&◌, ◌≡◌, ◌⊎◌};
ghost use Rattle.tmw_command.specs.BenchRun.{bench_lines, bench_shows_nothing, bench_status, bench_text, hunt_shows_nothing, hunt_status, hunt_text, last_lines};

use crate::bench::bench_run::BenchRun;
use crate::bench::hunt_run::HuntRun;
use std::alloc::{AllocError, Global};
use tmw_args::BenchOptions;
use tmw_counts::{Summary, is_open};
use tmw_defs::{Criterion, Verdict};
use tmw_drive_command::{add_summary, ends_text, put_driven};
use tmw_options::Form;
use tmw_report::{
    FAULT_STATUS, Fault, answer_fault, nothing_shown_if, report_text, send_remark, status_of,
};
use tmw_show::shown_text;
use tmw_streams::{Sink, put_all};
use tmw_workers::Ending;

/// Writes the log's trace, and behind it the lines that these options request, and returns the exit status. The lines are
/// made before anything is written: after a failed allocation only that fault's line is written. Of a run that shows
/// nothing the sink for errors is told.
pub fn answer_run<K: Sink, E: Sink>(
    alloc: Global,
    sink: &mut K,
    errors: &mut E,
    options: &BenchOptions,
    run: &BenchRun,
) -> u8
    ensures { (IsPut K.to sink.old sink.new (bench_text options.now run.now) (bench_status run.now) result
        × Remarks E.to (nothing_shown_if (bench_shows_nothing run.now)) errors.old errors.new)
        ⊎ (IsPut K.to sink.old sink.new (fault_line Memory) 4 result
        × (errors.new ≡ errors.old)) }
{
    let Ok(lines) = run_lines(alloc, options, run) else {
        return answer_fault(sink, Fault::Memory);
    };
    let verdict = &run.driven.outcome.verdict;
    let nothing_shown = shows_nothing(verdict, &run.driven.summary);
    send_remark(errors, nothing_shown_if(nothing_shown));
    match put_driven(sink, &run.driven, true, lines.as_bytes()) {
        Ok(()) => status_of(verdict),
        Err(_) => FAULT_STATUS,
    }
}

/// The lines behind the log's trace.
fn run_lines(alloc: Global, options: &BenchOptions, run: &BenchRun) -> Result<String, AllocError>
    ensures { IfOk result (λ lines. string_bytes lines ≡ bench_lines options.now run.now) }
{
    if options.written.trace_only {
        return Ok(String::new(alloc));
    }
    let outcome = &run.driven.outcome;
    let mut lines = report_text(alloc, outcome.log.len() as u64, &outcome.verdict)?;
    let last = last_lines(alloc, options, &outcome.ends, &run.driven.summary)?;
    lines.push_str(last.as_str())?;
    Ok(lines)
}

/// Writes what these options request, and returns the exit status.
///
/// Without `show`: the report line, the line of the ends, and that of the counts if it is asked for. With `show`: what the
/// command `show` draws of the log in the report's place. With `show` and `trace`: the traces of the last window alone.
/// The text is made before any of it is written: after a failed allocation only that fault's line is written. Of a run
/// that shows nothing the sink for errors is told.
pub fn answer_hunt<K: Sink, E: Sink>(
    alloc: Global,
    sink: &mut K,
    errors: &mut E,
    options: &BenchOptions,
    run: &HuntRun,
) -> u8
    ensures { (IsPut K.to sink.old sink.new (hunt_text options.now run.now) (hunt_status run.now) result
        × Remarks E.to (nothing_shown_if (hunt_shows_nothing run.now)) errors.old errors.new)
        ⊎ (IsPut K.to sink.old sink.new (fault_line Memory) 4 result
        × (errors.new ≡ errors.old)) }
{
    let Ok(text) = text_of(alloc, options, run) else {
        return answer_fault(sink, Fault::Memory);
    };
    let nothing_shown = shows_nothing(&run.shown.showing.verdict, &run.summary);
    send_remark(errors, nothing_shown_if(nothing_shown));
    match put_all(sink, &text) {
        Ok(()) => status_of(&run.shown.showing.verdict),
        Err(_) => FAULT_STATUS,
    }
}

/// The text that these options ask for.
fn text_of(alloc: Global, options: &BenchOptions, run: &HuntRun) -> Result<Vec<u8>, AllocError>
    ensures { IfOk result (λ text. text.items ≡ hunt_text options.now run.now) }
{
    if options.show && options.written.trace {
        return shown_text(alloc, Criterion::Opacity, 0, Form::Traces, &run.shown);
    }
    let last = last_lines(alloc, options, &run.ends, &run.summary)?;
    if options.show {
        let mut text = shown_text(alloc, Criterion::Opacity, 0, Form::Drawing, &run.shown)?;
        text.extend_from_slice(last.as_bytes())?;
        Ok(text)
    } else {
        let showing = &run.shown.showing;
        let mut lines = report_text(alloc, showing.fed, &showing.verdict)?;
        lines.push_str(last.as_str())?;
        Ok(lines.into_bytes())
    }
}

/// The line of the ends, and behind it that of the counts if it is asked for.
fn last_lines(
    alloc: Global,
    options: &BenchOptions,
    ends: &[Ending],
    summary: &Summary,
) -> Result<String, AllocError>
    ensures { IfOk result (λ lines. string_bytes lines ≡ last_lines options.now ends.now summary.now) }
{
    let mut lines = ends_text(alloc, ends)?;
    add_summary(alloc, &mut lines, options.written.summary, summary)?;
    Ok(lines)
}

/// Whether nothing is wrong, and no two transactions overlapped although there are two threads or more.
fn shows_nothing(verdict: &Verdict, summary: &Summary) -> bool
    ensures { result ≡ is_open verdict.now && summary.now.none_overlapped }
{
    is_open(verdict) && summary.none_overlapped
}
