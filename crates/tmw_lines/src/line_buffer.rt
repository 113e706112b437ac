ghost use Rattle.std.specs.Prelude.{◌≡◌, ℕ, ◌+◌, ◌-◌, ◌<◌, ◌≤◌, List, [], ◌++◌, length, take, drop, IfOk, OnOk, OnErr};
ghost use Rattle.tmw_streams.specs.Transfers.{Tells, FailsToRead};

use tmw_streams::{IoFault, Source};

/// The greatest number of bytes that are held.
pub const MOST_HELD: usize = 4096;

/// Bytes that were read from a source and are still to be used: at most 4,096.
#[derive(Drop)]
pub struct LineBuffer {
    buffer: [u8; MOST_HELD],
    start: usize,
    end: usize,
    ghost ordered: { start ≤ end },
    ghost within: { end ≤ 4096 },
}

impl LineBuffer {
    ghost use Rattle.tmw_lines.specs.LineBuffer.{bytes_of};

    /// Makes an empty buffer.
    pub const fn new() -> LineBuffer
        ensures { bytes_of result ≡ [] }
    {
        LineBuffer {
            buffer: [0; MOST_HELD],
            start: 0,
            end: 0,
        }
    }

    /// Returns the bytes held, in the order in which they were read.
    pub fn bytes(&self) -> &[u8]
        ensures value { result.now ≡ bytes_of self.now }
        ensures few { length result.now ≤ 4096 }
    {
        &self.buffer[self.start..self.end]
    }

    /// Drops the first `count` bytes.
    pub fn consume(&mut self, count: usize)
        requires { count ≤ length (bytes_of self.old) }
        ensures { bytes_of self.new ≡ drop count (bytes_of self.old) }
    {
        self.start += count;
    }

    /// Drops all bytes.
    pub fn clear(&mut self)
        ensures { bytes_of self.new ≡ [] }
    {
        self.start = 0;
        self.end = 0;
    }

    /// Reads once, into the room after the bytes held, and returns how many came: 0 only at the source's end.
    pub fn read<S: Source>(&mut self, source: &mut S) -> Result<usize, IoFault>
        requires room { length (bytes_of self.old) < 4096 }
        ensures more { IfOk result
            (λ count. (bytes : List ℕ) × Tells S.from source.old bytes source.new
            × (bytes_of self.new ≡ bytes_of self.old ++ bytes) × (length bytes ≡ count)) }
        ensures falls { IfOk result
            (λ count. S.from.left source.new + count ≤ S.from.left source.old) }
        ensures end { IfOk result (λ count. count ≡ 0 → S.from.ended source.new) }
        ensures well { OnOk result (S.from.failures source.new ≡ S.from.failures source.old) }
        ensures fails { OnErr result (FailsToRead S.from source.old source.new) }
        ensures kept { OnErr result (bytes_of self.new ≡ bytes_of self.old) }
    {
        move_to_front(&mut self.buffer, self.start, self.end);
        self.end -= self.start;
        self.start = 0;
        let count = source.read(&mut self.buffer[self.end..])?;
        self.end += count;
        Ok(count)
    }
}

/// Moves the bytes from `start` up to `end` to the front.
fn move_to_front(bytes: &mut [u8], start: usize, end: usize)
    requires ordered { start ≤ end }
    requires within { end ≤ length bytes.old }
    ensures { take (end - start) bytes.new ≡ take (end - start) (drop start bytes.old) }
{
    for index in 0..end - start {
        bytes[index] = bytes[start + index];
    }
}
