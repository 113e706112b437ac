ghost use Rattle.std.specs.Prelude.{◌≡◌, ℕ, List, IfOk, OnErr, Ok};
ghost use Rattle.std.specs.Io.KnownBytes.{IsAtEnd};
ghost use Rattle.tmw_streams.specs.Streams.{FromSource};
ghost use Rattle.tmw_streams.specs.Transfers.{Fills, FailsToRead};

use crate::io_fault::IoFault;

/// Where bytes are read from. It has finitely many bytes, tells them in order, and counts its failures.
pub trait Source {
    /// The bytes that it may have told since it was made, those that it has still to tell where they are known, that it has
    /// answered its end, a number no smaller than the bytes still to come, and how many reads failed, up to 2^64 - 1, where the
    /// count stays.
    ghost from: { FromSource Self };

    /// Reads bytes to the front of `buffer` and returns how many. `Ok(0)` into a buffer that isn't empty is the end;
    /// each later read returns `Ok(0)` and changes nothing. A failed read reads nothing, is counted, and is no end.
    fn read(&mut self, buffer: &mut [u8]) -> Result<usize, IoFault>
        ensures fills { IfOk result (Fills from self.old self.new buffer.old buffer.new) }
        ensures fails { OnErr result (FailsToRead from self.old self.new) }
        ensures end_again { from.ended self.old → (result ≡ Ok 0) × (self.new ≡ self.old) };

    /// In each state there are bytes that it may have told.
    ghost tells_some: { (s : Self) → (bytes : List ℕ) × from.told s bytes };
    /// Where it has answered its end, no byte that is known is left.
    ghost none_left: { (s : Self) → from.ended s → IsAtEnd (from.remaining s) };
}
