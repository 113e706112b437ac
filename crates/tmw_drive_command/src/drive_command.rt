ghost use Rattle.tmw_drive_command.specs.Shared.{memory_is};
ghost use Rattle.tmw_drive_command.specs.RunDrive.{DrivesBytes};

use crate::drive_source::drive_source;
use crate::drive_text::answer_driven;
use std::alloc::Global;
use tmw_args::RunOptions;
use tmw_monitor::Bounds;
use tmw_report::answer_fault;
use tmw_streams::{Sink, Source};
use tmw_tm::Tm;

/// Drives the workload that the source has on the memory, and judges its log within these bounds. It writes the report
/// line, and what else is asked for: the log's trace before it, or in its place, and behind it the line of the counts.
///
/// The memory should be new. The result is the exit status: 0 if the log is opaque so far, 1 if it is violated, 2 if it
/// is undecided, 4 after any fault, whose line alone is written.
pub fn run_drive<S: Source, K: Sink>(
    alloc: Global,
    source: &mut S,
    sink: &mut K,
    memory: &(dyn Tm + Sync),
    written: RunOptions,
    bounds: Bounds,
) -> u8
    ensures { DrivesBytes S.from K.to
        (memory_is (has memory.now) (gives memory.now)) written bounds source.old source.new sink.old
        sink.new result }
{
    match drive_source(alloc, source, memory, bounds) {
        Ok(driven) => answer_driven(alloc, sink, &driven, written),
        Err(fault) => answer_fault(sink, fault),
    }
}
