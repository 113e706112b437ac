ghost use Rattle.std.specs.Prelude.{◌≡◌, ◌≢◌, ◌+◌, ◌-◌, ◌^◌, ◌<◌, ◌≤◌, [], length, take, IfOk, IfErr, OnErr, IsTrue, false, replicate};
ghost use Rattle.std.specs.Coded.{→_prop};
ghost use Rattle.std.specs.Io.KnownBytes.{Consumes, IsAtEnd};
ghost use Rattle.std.specs.IoError.{error_kind};
ghost use Rattle.tmw_streams.specs.AtEnd.{IsAtEnd-prop};
ghost use Rattle.tmw_streams.specs.Transfers.{one_more};
ghost use Rattle.std.proofs.Common.{rules};
ghost use Rattle.std.proofs.lemmas.Grind.{common_steps};

use crate::io_fault::IoFault;
use crate::source::Source;
use std::io;
use std::io::{ErrorKind, Read};

/// The most bytes that a source over a std reader tells.
const MOST_TOLD: u64 = 1 << 60;

/// A source over a std reader. It returns what the reader gives, remembers the reader's end and reads no more after
/// it. After 2^60 bytes each read into a buffer that isn't empty fails, and the source has no end. A failure is what
/// the source returns as one: no contract knows which of the reader's calls failed.
#[derive(Drop)]
pub struct StdSource<R: Read> {
    reader: R,
    told: u64,
    failures: u64,
    over: bool,
    pub ghost few: { told ≤ 2 ^ 60 },
    pub ghost early: { IsTrue over → told < 2 ^ 60 },
    pub ghost at_end: { IsTrue over → IsAtEnd (R.remaining reader) } by { →_prop (IsAtEnd-prop (R.remaining reader)) },
}

impl<R: Read> StdSource<R> {
    ghost use Rattle.tmw_streams.specs.Std.{failed_reads, is_over, reader_of, told_count};

    /// Makes a source of all that the reader still has.
    pub fn new(reader: R) -> StdSource<R>
        ensures reader { reader_of result ≡ reader }
        ensures told { told_count result ≡ 0 }
        ensures failures { failed_reads result ≡ 0 }
        ensures over { is_over result ≡ false }
    {
        StdSource {
            reader,
            told: 0,
            failures: 0,
            over: false,
        }
    }

    /// Counts a failed read.
    fn fail(&mut self) -> IoFault
        ensures counted { self.new.failures ≡ one_more self.old.failures }
        ensures reader { self.new.reader ≡ self.old.reader }
        ensures same { (self.new.told ≡ self.old.told) × (self.new.over ≡ self.old.over) }
    {
        self.failures = self.failures.saturating_add(1);
        IoFault
    }
}

impl<R: Read> Source for StdSource<R> {
    ghost use Rattle.tmw_streams.specs.Std.{failed_reads, is_over, reader_of, told_count};

    ghost from = { record {
      told = λ source bytes. length bytes ≡ told_count source;
      remaining = λ source. R.remaining (reader_of source);
      ended = λ source. IsTrue (is_over source);
      left = λ source. 2 ^ 60 - told_count source;
      failures = failed_reads;
    } };

    fn read(&mut self, buffer: &mut [u8]) -> Result<usize, IoFault> {
        if self.over {
            return Ok(0);
        }
        if self.told == MOST_TOLD {
            return Err(self.fail());
        }
        let room = (MOST_TOLD - self.told).min(buffer.len() as u64) as usize;
        let Ok(count) = read_again(&mut self.reader, &mut buffer[..room]) else {
            return Err(self.fail());
        };
        self.told += count as u64;
        self.over = count == 0 && !buffer.is_empty();
        Ok(count)
    }

    ghost tells_some = { λ source.
        (replicate (told_count source) 0, Prim.search (rules, common_steps)) };

    ghost none_left = { λ source over. source.at_end over };
}

/// Reads once, and again after a signal has interrupted it: 2^64 times at most.
fn read_again<R: Read>(reader: &mut R, buffer: &mut [u8]) -> io::Result<usize>
    ensures within { IfOk result (λ count. count ≤ length buffer.old) }
    ensures gives { IfOk result (λ count.
        Consumes (R.remaining reader.old) (R.remaining reader.new) (take count buffer.new)) }
    ensures end { IfOk result
        (λ count. 0 < length buffer.old → count ≡ 0 → IsAtEnd (R.remaining reader.new)) }
    ensures kept { OnErr result (Consumes (R.remaining reader.old) (R.remaining reader.new) []) }
    ensures retried { IfErr result (λ fault. error_kind fault ≢ ErrorKind.Interrupted) }
{
    for _ in 0..u64::MAX {
        match reader.read(buffer) {
            Ok(count) => return Ok(count),
            Err(fault) => {
                if fault.kind() != ErrorKind::Interrupted {
                    return Err(fault);
                }
            }
        }
    }
    Err(io::Error::from(ErrorKind::TimedOut))
}
