ghost use Rattle.std.specs.Prelude.{◌≡◌, ◌≢◌, ◌-◌, ◌^◌, ◌<◌, ◌≤◌, [], length, take, min, IfOk, IfErr, OnErr, replicate};
ghost use Rattle.std.specs.Io.KnownBytes.{Appends};
ghost use Rattle.std.specs.IoError.{error_kind};
ghost use Rattle.std.proofs.Common.{rules};
ghost use Rattle.std.proofs.lemmas.Grind.{common_steps};

use crate::io_fault::IoFault;
use crate::sink::Sink;
use std::io;
use std::io::{ErrorKind, Write};

/// A sink over a std writer. A failure is what the sink returns as one: no contract knows which of the writer's calls
/// failed. The sink doesn't flush; no clause says so either.
#[derive(Drop)]
pub struct StdSink<W> {
    writer: W,
    taken: u64,
    failures: u64,
    ghost fits: { taken < 2 ^ 64 },
}

impl<W: Write> StdSink<W> {
    ghost use Rattle.tmw_streams.specs.Std.{failed_writes, taken_count, writer_of};

    /// Makes a sink that writes to the writer.
    pub fn new(writer: W) -> StdSink<W>
        ensures writer { writer_of result ≡ writer }
        ensures taken { taken_count result ≡ 0 }
        ensures failures { failed_writes result ≡ 0 }
    {
        StdSink {
            writer,
            taken: 0,
            failures: 0,
        }
    }
}

impl<W: Write> Sink for StdSink<W> {
    ghost use Rattle.tmw_streams.specs.Std.{failed_writes, taken_count, writer_of};

    ghost to = { record {
      took = λ sink bytes. taken_count sink ≡ min (length bytes) (2 ^ 64 - 1);
      holds = λ sink. W.contents (writer_of sink);
      failures = failed_writes;
    } };

    fn put(&mut self, bytes: &[u8]) -> Result<usize, IoFault> {
        let written = write_again(&mut self.writer, bytes);
        let Ok(count) = written else {
            self.failures = self.failures.saturating_add(1);
            return Err(IoFault);
        };
        self.taken = self.taken.saturating_add(count as u64);
        Ok(count)
    }

    ghost took_some = { λ sink.
        (replicate (taken_count sink) 0, Prim.search (rules, common_steps)) };
}

/// Writes once, and again after a signal has interrupted it: 2^64 times at most. A write that takes none of some bytes has failed.
fn write_again<W: Write>(writer: &mut W, bytes: &[u8]) -> io::Result<usize>
    ensures within { IfOk result (λ count. count ≤ length bytes.now) }
    ensures some { IfOk result (λ count. 0 < length bytes.now → 0 < count) }
    ensures takes { IfOk result (λ count.
        Appends (W.contents writer.old) (W.contents writer.new) (take count bytes.now)) }
    ensures kept { OnErr result (Appends (W.contents writer.old) (W.contents writer.new) []) }
    ensures retried { IfErr result (λ fault. error_kind fault ≢ ErrorKind.Interrupted) }
{
    for _ in 0..u64::MAX {
        match writer.write(bytes) {
            Ok(0) if !bytes.is_empty() => return Err(io::Error::from(ErrorKind::WriteZero)),
            Ok(count) => return Ok(count),
            Err(fault) => {
                if fault.kind() != ErrorKind::Interrupted {
                    return Err(fault);
                }
            }
        }
    }
    Err(io::Error::from(ErrorKind::TimedOut))
}
