ghost use Rattle.std.specs.Prelude.{◌≡◌, ◌≢◌, ◌-◌, ◌^◌, ◌≤◌, [], length, take, drop, min, max, Some, Ok, IfOk, OnErr, IsTrue, MatchBool, if◌then◌else◌, false, refl};
ghost use Rattle.std.proofs.lemmas.List.{drop_all};
ghost use Rattle.tmw_streams.specs.Transfers.{Fills, FailsToRead, one_more};

use crate::io_fault::IoFault;
use crate::source::Source;

/// A source over bytes in memory. A call reads at most a chosen number of bytes, and one chosen call may fail. After
/// the source has returned its end, calls aren't counted.
#[derive(Debug, Drop)]
pub struct MemorySource<'a> {
    content: &'a [u8],
    at: usize,
    most: usize,
    fails_at: Option<u64>,
    calls: u64,
    failures: u64,
    over: bool,
    ghost none_left: { IsTrue over → length content.now ≤ at },
}

impl<'a> MemorySource<'a> {
    ghost use Rattle.tmw_streams.specs.Memory.{source_bytes, source_calls, source_fails_at, source_most, source_over, told_bytes, from_memory};

    /// Makes a source of these bytes that never fails. A call reads as many bytes as fit the buffer.
    pub fn new(content: &'a [u8]) -> MemorySource<'a>
        ensures content { source_bytes result ≡ content.now }
        ensures told { told_bytes result ≡ [] }
        ensures failures { from_memory.failures result ≡ 0 }
        ensures limits { (source_most result ≡ 2 ^ 64 - 1) × (source_fails_at result ≡ None)
            × (source_calls result ≡ 0) }
        ensures over { source_over result ≡ false }
    {
        MemorySource::limited(content, usize::MAX, None)
    }

    /// Makes a source of these bytes of which a call reads at most `most`, where 0 counts as 1. It fails at call
    /// `fails_at` alone. The first call is 1. Calls are counted up to 2^64 - 1, where the count stays.
    pub fn limited(content: &'a [u8], most: usize, fails_at: Option<u64>) -> MemorySource<'a>
        ensures content { source_bytes result ≡ content.now }
        ensures told { told_bytes result ≡ [] }
        ensures failures { from_memory.failures result ≡ 0 }
        ensures limits { (source_most result ≡ most) × (source_fails_at result ≡ fails_at)
            × (source_calls result ≡ 0) }
        ensures over { source_over result ≡ false }
    {
        MemorySource {
            content,
            at: 0,
            most,
            fails_at,
            calls: 0,
            failures: 0,
            over: false,
        }
    }

    /// Counts a call, and tells whether it is the one that fails, whose failure is counted too.
    fn fails_now(&mut self) -> bool
        ensures fails { MatchBool result (self.old.fails_at ≡ Some (one_more self.old.calls))
            (self.old.fails_at ≢ Some (one_more self.old.calls)) }
        ensures failures { self.new.failures
            ≡ (if result then one_more self.old.failures else self.old.failures) }
        ensures same { self.new ≡ record self.old
            { calls = one_more self.old.calls; failures = self.new.failures } }
    {
        self.calls = self.calls.saturating_add(1);
        let fails = self.fails_at == Some(self.calls);
        if fails {
            self.failures = self.failures.saturating_add(1);
        }
        fails
    }

    /// How many bytes the next read tells into so much room.
    fn next_count(&self, room: usize) -> usize
        ensures { result ≡ min (min (length (source_bytes self.now) - self.now.at) room)
            (max self.now.most 1) }
    {
        self.rest().len().min(room).min(self.most.max(1))
    }

    /// Returns the bytes that the source has not read yet.
    fn rest(&self) -> &'a [u8]
        ensures { result.now ≡ drop self.now.at (source_bytes self.now) }
    {
        self.content.get(self.at..).unwrap_or(&[])
    }
}

impl Source for MemorySource<'_> {
    ghost use Rattle.tmw_streams.specs.Memory.{from_memory, source_over, SourceFails, SourceCalled, SourceGives};

    ghost from = { from_memory };

    fn read(&mut self, buffer: &mut [u8]) -> Result<usize, IoFault>
        ensures fills { IfOk result (Fills from_memory self.old self.new buffer.old buffer.new) }
        ensures fails { OnErr result (FailsToRead from_memory self.old self.new) }
        ensures end_again { IsTrue (source_over self.old) → (result ≡ Ok 0)
            × (self.new ≡ self.old) }

        // Until the end was answered each call is counted, and the chosen one fails. Any other tells as many bytes as there are, as fit,
        // and as it may.
        ensures called { source_over self.old ≡ false → SourceCalled self.old self.new }
        ensures gives { IfOk result (λ count. source_over self.old ≡ false
            → SourceGives self.old self.new (length buffer.old) count) }
        ensures cause { OnErr result (SourceFails self.old) }
    {
        if self.over {
            return Ok(0);
        }
        if self.fails_now() {
            return Err(IoFault);
        }
        let count = self.next_count(buffer.len());
        buffer[..count].copy_from_slice(&self.rest()[..count]);
        self.at += count;
        self.over = count == 0 && !buffer.is_empty();
        Ok(count)
    }

    ghost tells_some = { λ source. (take source.at source.content.now, refl) };

    ghost none_left = { λ source over. drop_all source.at source.content.now (source.none_left over) };
}
