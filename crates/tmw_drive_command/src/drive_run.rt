ghost use Rattle.tmw_drive_command.specs.DriveRun.{IsHeaderOf};

use tmw_counts::Summary;
use tmw_drive::Outcome;
use tmw_events::{Event, MOST_REGISTERS, Registers};
use tmw_trace::{Header, version_of};

/// What a memory made of a workload, the header under which its log is written, and what the log has shown.
#[derive(Debug, Drop)]
pub struct DriveRun {
    pub header: Header,
    pub outcome: Outcome,
    /// Of the part of the log that the verdict covers: up to its event, or all if nothing is wrong.
    pub summary: Summary,
}

/// Returns the header of a log that begins with 0 in all registers: of version 2 if it has an add call, else of version
/// 1.
pub fn header_of(registers: Registers, log: &[Event]) -> Header
    ensures { IsHeaderOf registers log.now result }
{
    Header {
        version: version_of(log),
        registers,
        initial: [0; MOST_REGISTERS],
    }
}
