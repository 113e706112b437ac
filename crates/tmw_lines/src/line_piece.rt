ghost use Rattle.std.specs.Prelude.{◌≡◌, ◌+◌, ◌<◌, ◌≤◌, ◌∷◌, length, drop};
ghost use Rattle.tmw_lines.specs.LineBuffer.{bytes_of};
ghost use Rattle.tmw_streams.specs.Transfers.{Reads};
ghost use Rattle.tmw_lines.specs.LinePiece.{IsSeen, IsPiece, UnlessFailed, piece_failures};

use crate::line_buffer::{LineBuffer, MOST_HELD};
use crate::line_length::length_before;
use tmw_streams::Source;

/// What stands at the front of the bytes held.
#[derive(Clone, Copy, PartialEq, Eq, Debug)]
pub enum LinePiece {
    /// So many bytes, and then a line feed.
    Line(usize),
    /// The source's last bytes, and no line feed.
    End,
    /// 4,096 bytes, and no line feed.
    Long,
    /// No line feed, and a read that failed.
    Failed,
}

/// Reads on until the bytes held begin with a whole line, or no more can be held or read. A line that is held already
/// is found before any read.
pub fn next_piece<S: Source>(held: &mut LineBuffer, source: &mut S) -> LinePiece
    ensures reads { Reads S.from source.old source.new (bytes_of held.old) (bytes_of held.new) }
    ensures piece { IsPiece result (S.from.ended source.new) (bytes_of held.new) }
    ensures falls { UnlessFailed result (S.from.left source.new + length (bytes_of held.new)
        ≤ S.from.left source.old + length (bytes_of held.old)) }
    ensures failures { S.from.failures source.new ≡ piece_failures result
        (S.from.failures source.old) }
{
    let mut seen = 0;
    loop {
        let bytes = held.bytes();
        let length = seen_on(bytes, seen);
        if length < bytes.len() {
            return LinePiece::Line(length);
        }
        if length == MOST_HELD {
            return LinePiece::Long;
        }
        match held.read(source) {
            Err(_) => return LinePiece::Failed,
            Ok(0) => return LinePiece::End,
            Ok(_) => seen = length,
        }
    }
}

/// How many bytes stand before the first line feed, or all, where so many are known to hold none.
fn seen_on(bytes: &[u8], seen: usize) -> usize
    requires seen { IsSeen seen bytes.now }
    requires few { length bytes.now ≤ 4096 }
    ensures seen { IsSeen result bytes.now }
    ensures stops { result < length bytes.now → drop result bytes.now ≡ 10
        ∷ drop (result + 1) bytes.now }
{
    seen + length_before(&bytes[seen..], b'\n')
}
