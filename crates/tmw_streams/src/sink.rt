ghost use Rattle.std.specs.Prelude.{ℕ, List, IfOk, OnErr};
ghost use Rattle.tmw_streams.specs.Streams.{ToSink};
ghost use Rattle.tmw_streams.specs.Transfers.{TakesFront, FailsToTake};

use crate::io_fault::IoFault;

/// Where bytes are written to. It takes them in order and counts its failures.
pub trait Sink {
    /// The bytes that it may have taken since it was made, those that it holds where they are known, and how many writes failed,
    /// up to 2^64 - 1, where the count stays.
    ghost to: { ToSink Self };

    /// Takes bytes from the front of `bytes` and returns how many: at least one if there is one. A write that fails,
    /// or that would take none of some, takes nothing and is counted.
    fn put(&mut self, bytes: &[u8]) -> Result<usize, IoFault>
        ensures takes { IfOk result (TakesFront to self.old self.new bytes.now) }
        ensures fails { OnErr result (FailsToTake to self.old self.new) };

    /// In each state there are bytes that it may have taken.
    ghost took_some: { (s : Self) → (bytes : List ℕ) × to.took s bytes };
}
