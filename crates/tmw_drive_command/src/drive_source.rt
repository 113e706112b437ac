ghost use Rattle.tmw_drive_command.specs.Shared.{Tells, failures_after_answer, memory_is};
ghost use Rattle.std.specs.Prelude.{List, ℕ, ◌≡◌};
ghost use Rattle.tmw_drive_command.specs.RunDrive.{AnswersWorkload, fault_of};

use crate::drive_run::{DriveRun, header_of};
use crate::workload_source::read_source;
use std::alloc::Global;
use tmw_counts::count_part;
use tmw_drive::{DriveFault, drive};
use tmw_monitor::Bounds;
use tmw_report::Fault;
use tmw_streams::Source;
use tmw_tm::Tm;

/// Reads a workload up to the source's end, and drives it on the memory.
pub fn drive_source<S: Source>(
    alloc: Global,
    source: &mut S,
    memory: &(dyn Tm + Sync),
    bounds: Bounds,
) -> Result<DriveRun, Fault>
    ensures right { (bytes : List ℕ) × Tells S.from source.old bytes source.new
        × AnswersWorkload (memory_is (has memory.now) (gives memory.now)) bounds
        (S.from.ended source.new) bytes result }
    ensures failures { S.from.failures source.new ≡ failures_after_answer result
        (S.from.failures source.old) }
{
    let workload = read_source(alloc, source)?;
    let outcome = match drive(alloc, memory, &workload, bounds) {
        Ok(outcome) => outcome,
        Err(fault) => return Err(fault_of(fault)),
    };
    let summary = count_part(workload.registers, &outcome.log, &outcome.verdict);
    Ok(DriveRun {
        header: header_of(workload.registers, &outcome.log),
        outcome,
        summary,
    })
}

/// The fault by which the command answers that a workload was not driven.
const fn fault_of(fault: DriveFault) -> Fault
    ensures { result ≡ fault_of fault }
{
    match fault {
        DriveFault::Registers => Fault::Registers,
        DriveFault::Memory => Fault::Memory,
    }
}
