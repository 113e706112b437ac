ghost use Rattle.tmw_report.specs.Shared.{Puts, decimal};
ghost use Rattle.std.specs.Prelude.{◌++◌};
ghost use Rattle.tmw_report.specs.Lines.{fault_line};

use crate::fault::Fault;
use tmw_streams::{IoFault, Sink, put_all, put_with_number};

/// Writes the fault's line, with its line feed. It takes no memory. After a failed write a beginning of the line went out,
/// and not all of it.
pub fn write_fault<K: Sink>(sink: &mut K, fault: &Fault) -> Result<(), IoFault>
    ensures { Puts K.to sink.old (fault_line fault.now) sink.new result }
{
    match *fault {
        Fault::BadHeader => put_all(sink, b"{\"fault\":\"bad header\"}\n"),
        Fault::BadLine(line) => {
            put_numbered(sink, b"{\"fault\":\"bad line\",\"line\":", line, b"}\n")
        }
        Fault::Cut(line) => put_numbered(sink, b"{\"fault\":\"cut\",\"line\":", line, b"}\n"),
        Fault::TooLong => put_all(sink, b"{\"fault\":\"too long\"}\n"),
        Fault::Memory => put_all(sink, b"{\"fault\":\"memory\"}\n"),
        Fault::Io => put_all(sink, b"{\"fault\":\"io\"}\n"),
        Fault::Json => put_all(sink, b"{\"fault\":\"json\"}\n"),
        Fault::Shape => put_all(sink, b"{\"fault\":\"shape\"}\n"),
        Fault::Registers => put_all(sink, b"{\"fault\":\"registers\"}\n"),
        Fault::Ring => put_all(sink, b"{\"fault\":\"ring\"}\n"),
        Fault::Spawn => put_all(sink, b"{\"fault\":\"spawn\"}\n"),
        Fault::Size => put_all(sink, b"{\"fault\":\"size\"}\n"),
        Fault::Limit => put_all(sink, b"{\"fault\":\"limit\"}\n"),
        Fault::Usage => put_all(sink, b"{\"fault\":\"usage\"}\n"),
    }
}

/// Writes a text, a number, and another text.
pub(crate) fn put_numbered<K: Sink>(
    sink: &mut K,
    before: &[u8],
    number: u64,
    after: &[u8],
) -> Result<(), IoFault>
    ensures { Puts K.to sink.old ((before.now ++ decimal number) ++ after.now) sink.new result }
{
    put_with_number(sink, before, number)?;
    put_all(sink, after)
}
