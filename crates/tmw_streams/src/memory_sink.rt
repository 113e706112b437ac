ghost use Rattle.std.specs.Prelude.{◌≡◌, ◌⊎◌, ◌-◌, ◌^◌, [], length, min, max, IfOk, OnOk, OnErr, refl};
ghost use Rattle.tmw_streams.specs.Memory.{held_bytes, sink_calls, sink_fails_at, sink_most, to_memory};
ghost use Rattle.tmw_streams.specs.Transfers.{TakesFront, FailsToTake, one_more};

use crate::io_fault::IoFault;
use crate::sink::Sink;
use std::alloc::Global;

/// A sink that keeps its bytes in memory. It takes at most a chosen number of bytes a call, and may fail at one
/// chosen call. A failed allocation is a failed write.
#[derive(Debug, Drop)]
pub struct MemorySink {
    bytes: Vec<u8>,
    most: usize,
    fails_at: Option<u64>,
    calls: u64,
    failures: u64,
}

impl MemorySink {
    /// Makes an empty sink that takes all the bytes of a call, and fails only if it has no room and cannot grow.
    pub fn new(alloc: Global) -> MemorySink
        ensures held { held_bytes result ≡ [] }
        ensures failures { to_memory.failures result ≡ 0 }
        ensures limits { (sink_most result ≡ 2 ^ 64 - 1) × (sink_fails_at result ≡ None)
            × (sink_calls result ≡ 0) }
    {
        MemorySink::limited(alloc, usize::MAX, None)
    }

    /// Makes an empty sink that takes at most `most` bytes a call, where 0 counts as 1. It fails at call `fails_at`,
    /// and at another only if it cannot grow. The first call is 1. Calls are counted up to 2^64 - 1, where the count
    /// stays.
    pub fn limited(alloc: Global, most: usize, fails_at: Option<u64>) -> MemorySink
        ensures held { held_bytes result ≡ [] }
        ensures failures { to_memory.failures result ≡ 0 }
        ensures limits { (sink_most result ≡ most) × (sink_fails_at result ≡ fails_at)
            × (sink_calls result ≡ 0) }
    {
        MemorySink {
            bytes: Vec::new(alloc),
            most,
            fails_at,
            calls: 0,
            failures: 0,
        }
    }

    /// Returns the bytes taken so far.
    pub fn bytes(&self) -> &[u8]
        ensures { result.now ≡ held_bytes self.now }
    {
        &self.bytes
    }

    /// Counts a failed write.
    fn fail(&mut self) -> IoFault
        ensures { self.new ≡ record self.old { failures = one_more self.old.failures } }
    {
        self.failures = self.failures.saturating_add(1);
        IoFault
    }
}

impl Sink for MemorySink {
    ghost use Rattle.tmw_streams.specs.Memory.{SinkFails, SinkCalled, SinkLacksRoom};

    ghost to = { to_memory };

    fn put(&mut self, bytes: &[u8]) -> Result<usize, IoFault>
        ensures takes { IfOk result (TakesFront to_memory self.old self.new bytes.now) }
        ensures fails { OnErr result (FailsToTake to_memory self.old self.new) }

        // It fails at the chosen call, and where there is no room, and else takes as many bytes as there are and as it may.
        ensures called { SinkCalled self.old self.new }
        ensures cause { OnErr result (SinkFails self.old
            ⊎ SinkLacksRoom self.old (min (length bytes.now) (max (sink_most self.old) 1))) }
        ensures goes_on { OnOk result (SinkFails self.old → ⊥) }
        ensures count { IfOk result
            (λ count. count ≡ min (length bytes.now) (max (sink_most self.old) 1)) }
    {
        self.calls = self.calls.saturating_add(1);
        if self.fails_at == Some(self.calls) {
            return Err(self.fail());
        }
        let count = bytes.len().min(self.most.max(1));
        if self.bytes.extend_from_slice(&bytes[..count]).is_err() {
            return Err(self.fail());
        }
        Ok(count)
    }

    ghost took_some = { λ sink. (sink.bytes.items, refl) };
}
