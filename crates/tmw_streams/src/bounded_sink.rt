ghost use Rattle.std.specs.Prelude.{◌≡◌, ◌+◌, ◌<◌, ◌≤◌, [], length, take, IfOk, OnOk, OnErr, refl};
ghost use Rattle.tmw_streams.specs.BoundedSink.{bounded_bytes, to_bounded};
ghost use Rattle.tmw_streams.specs.Transfers.{TakesFront, FailsToTake};

use crate::io_fault::IoFault;
use crate::sink::Sink;
use arrayvec::ArrayVec;

/// The greatest number of bytes that a `BoundedSink` holds.
const MOST_BYTES: usize = 4096;

/// A sink that holds at most 4,096 bytes and takes no memory. A call takes all its bytes; if they don't fit it takes
/// none, which is a failed write.
#[derive(Drop)]
pub struct BoundedSink {
    bytes: ArrayVec<u8, MOST_BYTES>,
    failures: u64,
}

impl BoundedSink {
    /// Makes an empty sink.
    pub fn new() -> BoundedSink
        ensures held { bounded_bytes result ≡ [] }
        ensures failures { to_bounded.failures result ≡ 0 }
    {
        BoundedSink {
            bytes: ArrayVec::new(),
            failures: 0,
        }
    }

    /// Returns the bytes held, in the order in which they were taken.
    pub fn bytes(&self) -> &[u8]
        ensures { result.now ≡ bounded_bytes self.now }
    {
        self.bytes.as_slice()
    }

    /// Returns how many bytes are held.
    pub fn len(&self) -> usize
        ensures { result ≡ length (bounded_bytes self.now) }
    {
        self.bytes.len()
    }

    /// Keeps the first `count` bytes, or all if there are fewer.
    pub fn truncate(&mut self, count: usize)
        ensures held { bounded_bytes self.new ≡ take count (bounded_bytes self.old) }
        ensures failures { to_bounded.failures self.new ≡ to_bounded.failures self.old }
    {
        self.bytes.truncate(count);
    }

    /// Drops all bytes.
    pub fn clear(&mut self)
        ensures held { bounded_bytes self.new ≡ [] }
        ensures failures { to_bounded.failures self.new ≡ to_bounded.failures self.old }
    {
        self.bytes.clear();
    }
}

impl Sink for BoundedSink {
    ghost to = { to_bounded };

    fn put(&mut self, bytes: &[u8]) -> Result<usize, IoFault>
        ensures takes { IfOk result (TakesFront to_bounded self.old self.new bytes.now) }
        ensures fails { OnErr result (FailsToTake to_bounded self.old self.new) }

        // It takes all bytes where they fit, and fails only where they don't.
        ensures whole { IfOk result (λ count. count ≡ length bytes.now) }
        ensures full { OnErr result (4096 < length (bounded_bytes self.old) + length bytes.now) }
        ensures fits { OnOk result (length (bounded_bytes self.new) ≤ 4096) }
    {
        if self.bytes.try_extend_from_slice(bytes).is_err() {
            self.failures = self.failures.saturating_add(1);
            return Err(IoFault);
        }
        Ok(bytes.len())
    }

    ghost took_some = { λ sink. (sink.bytes.items, refl) };
}
