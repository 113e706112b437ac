//! A workload, read from its text.
ghost use Rattle.tmw_drive_command.specs.Shared.{Tells, failures_after_answer};
ghost use Rattle.std.specs.Prelude.{List, ℕ, ◌≡◌};
ghost use Rattle.tmw_drive_command.specs.ReadSource.{AnswersText};

use std::alloc::Global;
use tmw_report::Fault;
use tmw_streams::{ReadFault, Source, read_all};
use tmw_workloads::{Workload, WorkloadFault, read_workload};

/// Reads a workload up to the source's end.
pub fn read_source<S: Source>(alloc: Global, source: &mut S) -> Result<Workload, Fault>
    ensures right { (bytes : List ℕ) × Tells S.from source.old bytes source.new
        × AnswersText (S.from.ended source.new) bytes result }
    ensures failures { S.from.failures source.new ≡ failures_after_answer result
        (S.from.failures source.old) }
{
    let mut bytes = Vec::new(alloc);
    match read_all(source, &mut bytes) {
        Ok(()) => read_bytes(alloc, &bytes),
        Err(ReadFault::Io) => Err(Fault::Io),
        Err(ReadFault::Memory) => Err(Fault::Memory),
    }
}

/// The workload that these bytes are the text of. Never `Io`.
fn read_bytes(alloc: Global, bytes: &[u8]) -> Result<Workload, Fault>
    ensures { AnswersText (Unit {0}) bytes.now result }
{
    match read_workload(alloc, bytes) {
        Ok(workload) => Ok(workload),
        Err(WorkloadFault::Json) => Err(Fault::Json),
        Err(WorkloadFault::Shape) => Err(Fault::Shape),
        Err(WorkloadFault::Memory) => Err(Fault::Memory),
    }
}
