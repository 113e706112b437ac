ghost use Rattle.tmw_show.specs.RunShow.{ShowsBytes};

use crate::show_answer::answer_shown;
use crate::show_trace::show_trace;
use std::alloc::Global;
use tmw_options::ShowOptions;
use tmw_report::answer_fault;
use tmw_streams::{Sink, Source};

/// Judges the trace that the source has, as these options say, and writes where it went wrong.
///
/// As a drawing: first comes the line that `judge` writes, then a line for each state from which the last window begins.
/// Then comes a line for each event of that window, up to the one at which something is wrong, with its number, in a
/// column for each thread. As traces: the window alone, as traces of its own, one for each of the states. As a page: one
/// page of HTML that draws the same, and needs no other file and no network. With `why` only the events of a violated
/// window are drawn, or written as traces, that contradict each other; the page marks them. The drawing, its sentences and
/// the page number events in the whole run, of which `before` come before the trace; the report's line and the sink for
/// errors number them in the trace. The trace is read once. Returns the exit status: 0 if nothing is wrong so far, 1 for
/// violated, 2 for undecided, 3 for malformed, 4 for any fault, whose line alone is written. The sink for errors is told
/// which line of the trace has a fault, or the first event that fits no run, if it comes after the event of the verdict, or
/// else what to do if the run is undecided.
pub fn run_show<S: Source, K: Sink, E: Sink>(
    alloc: Global,
    source: &mut S,
    sink: &mut K,
    errors: &mut E,
    options: ShowOptions,
) -> u8
    ensures { ShowsBytes S.from K.to E.to options
        source.old source.new sink.old sink.new errors.old errors.new result }
{
    match show_trace(alloc, source, errors, options) {
        Ok(shown) => {
            let before = options.before;
            answer_shown(
                alloc,
                sink,
                errors,
                options.criterion,
                before,
                options.form,
                &shown,
            )
        }
        Err(fault) => answer_fault(sink, fault),
    }
}
