ghost use Rattle.tmw_judge.specs.Shared.{IsNew, RemarksFault, Tells, failures_after_answer, reading_failures};
ghost use Rattle.std.specs.Prelude.{◌≡◌, ℕ, Err, List};
ghost use Rattle.tmw_report.specs.declared.fault.Fault.TheVariants.{Memory};
ghost use Rattle.tmw_judge.specs.Answer.{Answers, AnswersBy};
ghost use Rattle.tmw_judge.specs.FeedEvents.{HasReadFirstLine, ReadsBeginning};

use crate::ending::{Ending, UntilEnd, UntilFinal};
use crate::feed_events::feed_events;
use crate::judge_result::JudgeResult;
use crate::judges::Judges;
use crate::monitors::{broken_of, monitors_for, reports_of};
use crate::tally::{BothNoTally, NoTally, StrictNoTally, Tally};
use std::alloc::Global;
use std::marker::PhantomData;
use tmw_counts::Counter;
use tmw_defs::Asked;
use tmw_lines::TextFault;
use tmw_monitor::Bounds;
use tmw_options::JudgeOptions;
use tmw_report::{Fault, quote_fault};
use tmw_streams::{Sink, Source};
use tmw_trace::TraceLines;

/// Reads a trace up to the source's end, or by `first` up to the event at which all verdicts are final, and judges each
/// event as its line is read, by each requested criterion. No event is kept, so the memory depends on the transactions
/// since the last cut and not on the trace's length. All of it is allocated when the first line has been read: `Memory` is
/// returned only if at most 4,096 bytes were read after that line, and no event was fed. `begun` is then the trace's
/// reader, which has given no event. Writes to `errors` which line has a fault.
pub fn judge<S: Source, E: Sink>(
    alloc: Global,
    source: &mut S,
    begun: &mut TraceLines,
    errors: &mut E,
    options: JudgeOptions,
) -> Result<JudgeResult, Fault>
    ensures right { (bytes : List ℕ) × Tells S.from source.old bytes source.new
        × Answers options (S.from.ended source.new) bytes result
        × RemarksFault E.to bytes result errors.old errors.new }
    ensures failures { S.from.failures source.new ≡ failures_after_answer result
        (S.from.failures source.old) }
    ensures memory { result ≡ Err Memory
        → HasReadFirstLine S.from source.old source.new begun.new }
{
    match (options.summary, options.asked) {
        (true, _) => judge_by::<S, E, Counter>(alloc, source, begun, errors, options),
        (false, Asked::Strict) => {
            judge_by::<S, E, StrictNoTally>(alloc, source, begun, errors, options)
        }
        (false, Asked::Both) => judge_by::<S, E, BothNoTally>(
            alloc, source, begun, errors, options,
        ),
        (false, Asked::Opacity) => judge_by::<S, E, NoTally>(alloc, source, begun, errors, options),
    }
}

/// Judges a trace, and counts by `C` the events of the longest part that a verdict covers.
fn judge_by<S: Source, E: Sink, C: Tally>(
    alloc: Global,
    source: &mut S,
    begun: &mut TraceLines,
    errors: &mut E,
    options: JudgeOptions,
) -> Result<JudgeResult, Fault>
    ensures right { (bytes : List ℕ) × Tells S.from source.old bytes source.new
        × AnswersBy options.first C.counted options.bounds options.asked (S.from.ended source.new)
        bytes result
        × RemarksFault E.to bytes result errors.old errors.new }
    ensures failures { S.from.failures source.new ≡ failures_after_answer result
        (S.from.failures source.old) }
    ensures memory { result ≡ Err Memory
        → HasReadFirstLine S.from source.old source.new begun.new }
{
    if options.first {
        judge_to::<S, E, C, UntilFinal>(alloc, source, begun, errors, options)
    } else {
        judge_to::<S, E, C, UntilEnd>(alloc, source, begun, errors, options)
    }
}

/// Judges a trace up to the ending `F`.
fn judge_to<S: Source, E: Sink, C: Tally, F: Ending>(
    alloc: Global,
    source: &mut S,
    begun: &mut TraceLines,
    errors: &mut E,
    options: JudgeOptions,
) -> Result<JudgeResult, Fault>
    ensures right { (bytes : List ℕ) × Tells S.from source.old bytes source.new
        × AnswersBy F.first C.counted options.bounds options.asked (S.from.ended source.new)
        bytes result
        × RemarksFault E.to bytes result errors.old errors.new }
    ensures failures { S.from.failures source.new ≡ failures_after_answer result
        (S.from.failures source.old) }
    ensures memory { result ≡ Err Memory
        → HasReadFirstLine S.from source.old source.new begun.new }
{
    let mut lines = TraceLines::new();
    let mut judges: Judges<C, F> = match begin(
        alloc,
        &mut lines,
        source,
        options.bounds,
        options.asked,
    ) {
        Ok(judges) => judges,
        Err(fault) => {
            let told = quote_fault(errors, &lines, fault);
            *begun = lines;
            return Err(told);
        }
    };
    if let Err(fault) = feed_events(&mut lines, source, &mut judges) {
        return Err(quote_fault(errors, &lines, fault));
    }
    Ok(JudgeResult {
        reports: reports_of(&judges.monitors),
        summary: judges.counting.summary(),
        broken: broken_of(&judges.monitors),
    })
}

/// Reads a trace's first line, and makes the judges for its history. `Memory` follows a failed allocation for them:
/// at most 4,096 bytes were read after that line.
fn begin<S: Source, C: Tally, F: Ending>(
    alloc: Global,
    lines: &mut TraceLines,
    source: &mut S,
    bounds: Bounds,
    asked: Asked,
) -> Result<Judges<C, F>, TextFault>
    requires { IsNew lines.old }
    ensures begins { ReadsBeginning S.from C.counts (S.from.ended source.new) source.old source.new
        lines.new bounds asked result }
    ensures failures { S.from.failures source.new ≡ reading_failures result
        (S.from.failures source.old) }
{
    let header = match lines.header(source) {
        Ok(header) => header,
        Err(fault) => return Err(fault),
    };
    let Ok(monitors) = monitors_for(alloc, header, bounds, asked) else {
        return Err(TextFault::Memory);
    };
    Ok(Judges {
        monitors,
        counting: C::begin(header.registers),
        ending: PhantomData,
    })
}
