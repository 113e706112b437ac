ghost use Rattle.tmw_command.specs.Shared.{MatchBool, memory_is};
ghost use Rattle.std.specs.Prelude.{None, Some, ◌≡◌};
ghost use Rattle.tmw_command.specs.BenchRun.{asks_for_log};
ghost use Rattle.tmw_command.specs.RunBench.{BenchesBytes};

use crate::bench::bench_source::{bench_source, hunt_source};
use crate::bench::bench_text::{answer_hunt, answer_run};
use std::sync::Wait;
use std::thread::Threads;
use tmw_args::BenchOptions;
use tmw_bench::Progress;
use tmw_report::answer_fault;
use tmw_streams::{Sink, Source};
use tmw_tm::Tm;

/// Runs the workload that the source has on the memory, in a thread for each of its scripts, judges what they record,
/// and writes what the options request.
///
/// Without a flag it writes the report line, then the line that tells how each thread has ended. With `summary` that of the
/// counts follows. With `trace` the log's trace comes before all, and with `trace_only` alone. With `show` what the
/// command `show` draws comes in the report's place, with `why` what `show --why` does. With `show` and `trace` alone it writes only the traces of the last
/// window, as `show --trace` does. It keeps the whole log only for the log's trace; else it tells `progress` how far the run has
/// come, unless it is to be quiet. Of a run that shows nothing the sink for errors is told.
///
/// The memory should be new. The result is the exit status: 0 if the log is opaque so far, 1 if it is violated, 2 if it
/// is undecided, 4 after any fault, whose line alone is written. It returns if each call of the memory, of the source,
/// of the sink and of `progress` does.
pub fn run_bench_cmd<
    S: Source,
    K: Sink,
    E: Sink,
    R: AllocGlobal + Threads + Wait + Sync,
    P: Progress,
>(
    rt: &R,
    source: &mut S,
    sink: &mut K,
    errors: &mut E,
    memory: &(dyn Tm + Sync),
    options: &BenchOptions,
    progress: &P,
) -> u8
    ensures { BenchesBytes S.from K.to E.to
        (memory_is (has memory.now) (gives memory.now)) options.now
        source.old source.new sink.old sink.new errors.old errors.new result }
{
    let alloc = rt.alloc();
    if asks_for_log(options) {
        match bench_source(rt, alloc, source, memory, options.settings) {
            Ok(found) => answer_run(alloc, sink, errors, options, &found),
            Err(fault) => answer_fault(sink, fault),
        }
    } else {
        let told = told_of(options.quiet, progress);
        match hunt_source(rt, alloc, source, memory, options, &told) {
            Ok(found) => answer_hunt(alloc, sink, errors, options, &found),
            Err(fault) => answer_fault(sink, fault),
        }
    }
}

/// Whether the log's trace is requested, and so the log is kept.
const fn asks_for_log(options: &BenchOptions) -> bool
    ensures { result ≡ asks_for_log options.now }
{
    options.written.trace_only || options.written.trace && !options.show
}

/// Who is told how far a bench has come: nobody if it is to be quiet.
fn told_of<P: Progress>(quiet: bool, progress: &P) -> Option<&P>
    ensures { MatchBool quiet (result ≡ None) (result ≡ Some progress.entry) }
{
    if quiet { None } else { Some(progress) }
}
