ghost use Rattle.std.specs.Prelude.{◌≡◌};
ghost use Rattle.tmw_report.specs.Lines.{fault_line};
ghost use Rattle.tmw_report.specs.SendText.{IsPut, fault_of};

use crate::exit_status::FAULT_STATUS;
use crate::fault::Fault;
use crate::fault_line::write_fault;
use tmw_lines::TextFault;
use tmw_streams::Sink;

/// Writes the fault's line and returns its exit status. It takes no memory.
pub fn answer_fault<K: Sink>(sink: &mut K, fault: Fault) -> u8
    ensures { IsPut K.to sink.old sink.new (fault_line fault) 4 result }
{
    let _written = write_fault(sink, &fault);
    FAULT_STATUS
}

/// Returns the fault that reports a fault of a text.
pub const fn fault_of(fault: TextFault) -> Fault
    ensures { result ≡ fault_of fault }
{
    match fault {
        TextFault::BadHeader => Fault::BadHeader,
        TextFault::BadLine(line) => Fault::BadLine(line),
        TextFault::Cut(line) => Fault::Cut(line),
        TextFault::Memory => Fault::Memory,
        TextFault::Io => Fault::Io,
        TextFault::TooLong => Fault::TooLong,
    }
}
