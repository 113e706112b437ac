ghost use Rattle.tmw_judge.specs.Shared.{Remarks, fault_line};
ghost use Rattle.std.specs.Prelude.{◌≡◌, ◌⊎◌};
ghost use Rattle.tmw_report.specs.declared.fault.Fault.TheVariants.{Memory};
ghost use Rattle.tmw_report.specs.SendText.{IsPut};
ghost use Rattle.tmw_judge.specs.Answer.{judged_lines, judged_status, remark_of, JudgesWith};
ghost use Rattle.tmw_judge.specs.Judge.{JudgesBytes};

use crate::answer_lines::{judged_lines, remark_of, status_of_reports};
use crate::judge::judge;
use crate::judge_result::JudgeResult;
use std::alloc::Global;
use tmw_defs::Asked;
use tmw_monitor::Bounds;
use tmw_options::JudgeOptions;
use tmw_report::{FAULT_STATUS, Fault, answer_fault, send_remark};
use tmw_streams::{BoundedSink, Sink, Source, put_all};
use tmw_trace::TraceLines;

/// Judges the trace that the source has, within these bounds and by the requested criteria. It reads the trace once
/// and writes a report line for each criterion, opacity's first, or one fault line. Returns the exit status: 0 for
/// opaque so far and for strict so far, 1 for violated, 2 for undecided, 3 for malformed, 4 for any fault. Of two
/// verdicts malformed comes first, then violated, then undecided.
pub fn run_judge<S: Source, K: Sink>(
    alloc: Global,
    source: &mut S,
    sink: &mut K,
    bounds: Bounds,
    asked: Asked,
) -> u8
    ensures { JudgesBytes S.from K.to bounds asked
        source.old source.new sink.old sink.new result }
{
    let options = JudgeOptions::plain(bounds, asked);
    run_judge_with(alloc, source, sink, &mut BoundedSink::new(), options)
}

/// Judges a trace as `run_judge` does, with these options. With `first` it ends at the event at which each requested verdict
/// is final: the reports count the events up to that one, at most 4,096 bytes are read behind it, and none of these is
/// parsed. With `summary` a line of counts follows the reports: of the events up to the one that the verdict names, before
/// it if that event is malformed, or all; of two verdicts the longer part is counted. If nothing is wrong but the counts
/// show that the run tested little, a line of what it did not test follows (`untested`).
///
/// Writes at most one line to `errors`: which line has a fault; or the first judged event that fits no run, if it comes
/// after the event of a verdict; or, if nothing is wrong, that no two transactions overlapped, if the counts show that; or
/// what to do, if a verdict is undecided.
pub fn run_judge_with<S: Source, K: Sink, E: Sink>(
    alloc: Global,
    source: &mut S,
    sink: &mut K,
    errors: &mut E,
    options: JudgeOptions,
) -> u8
    ensures { JudgesWith S.from K.to E.to options
        source.old source.new sink.old sink.new errors.old errors.new result }
{
    match judge(alloc, source, &mut TraceLines::new(), errors, options) {
        Ok(answer) => write_answer(alloc, sink, errors, answer),
        Err(fault) => answer_fault(sink, fault),
    }
}

/// Writes the answer's lines and returns its exit status. The lines are made before any goes out: after a failed
/// allocation for one, that fault's line is written instead. A remark on the run goes to the sink for errors.
fn write_answer<K: Sink, E: Sink>(
    alloc: Global,
    sink: &mut K,
    errors: &mut E,
    answer: JudgeResult,
) -> u8
    ensures { (IsPut K.to sink.old sink.new (judged_lines answer) (judged_status answer) result
        × Remarks E.to (remark_of answer) errors.old errors.new)
        ⊎ (IsPut K.to sink.old sink.new (fault_line Memory) 4 result
        × (errors.new ≡ errors.old)) }
{
    let Ok(lines) = judged_lines(alloc, &answer) else {
        return answer_fault(sink, Fault::Memory);
    };
    send_remark(errors, remark_of(&answer));
    match put_all(sink, lines.as_bytes()) {
        Ok(()) => status_of_reports(&answer.reports),
        Err(_) => FAULT_STATUS,
    }
}
