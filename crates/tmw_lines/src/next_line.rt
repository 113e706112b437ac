ghost use Rattle.std.specs.Prelude.{◌≡◌, ◌<◌, ◌≤◌, ◌+◌, ◌^◌, ◌∷◌, None, length, take, drop, IfSome, IfNone, IfOk, OnSome};
ghost use Rattle.tmw_lines.specs.LineBuffer.{bytes_of};
ghost use Rattle.tmw_lines.specs.NextLine.{ReadsLine, IsItemLine};
ghost use Rattle.tmw_lines.specs.TextFault.{IsUnbroken, IsBadLine, reading_failures};

use crate::line_buffer::LineBuffer;
use crate::line_format::LineFormat;
use crate::line_piece::{LinePiece, next_piece};
use crate::long_line::{LineEnd, skip_line};
use crate::text_fault::TextFault;
use tmw_streams::Source;

/// The greatest number of items' lines in a text.
pub const MOST_ITEMS: u64 = 1 << 40;

/// Reads the line after so many items' lines and returns its item, nothing at the source's end, or its fault.
pub fn next_line<F: LineFormat, S: Source>(
    held: &mut LineBuffer,
    source: &mut S,
    format: F,
    count: u64,
) -> Result<Option<F::Item>, TextFault>
    requires { count ≤ 2 ^ 40 }
    ensures reads { ReadsLine F.grammar S.from (S.from.ended source.new) source.old source.new
        format count
        (bytes_of held.old) (bytes_of held.new) result }
    ensures falls { IfOk result
        (λ found. OnSome found (S.from.left source.new + length (bytes_of held.new)
        < S.from.left source.old + length (bytes_of held.old))) }
    ensures failures { S.from.failures source.new ≡ reading_failures result
        (S.from.failures source.old) }
{
    if count == MOST_ITEMS {
        return past_last(held, source, format);
    }
    match next_piece(held, source) {
        LinePiece::Line(length) => match take_item(held, length, format) {
            Some(item) => Ok(Some(item)),
            None => Err(TextFault::BadLine(count + 2)),
        },
        LinePiece::End if held.bytes().is_empty() => Ok(None),
        LinePiece::End => Err(TextFault::Cut(count + 2)),
        LinePiece::Failed => Err(TextFault::Io),
        LinePiece::Long => match skip_line(source) {
            LineEnd::Feed => Err(TextFault::BadLine(count + 2)),
            LineEnd::End => Err(TextFault::Cut(count + 2)),
            LineEnd::Failed => Err(TextFault::Io),
        },
    }
}

/// Sees that nothing follows the greatest number of items' lines.
fn past_last<F: LineFormat, S: Source>(
    held: &mut LineBuffer,
    source: &mut S,
    format: F,
) -> Result<Option<F::Item>, TextFault>
    ensures reads { ReadsLine F.grammar S.from (S.from.ended source.new) source.old source.new
        format (2 ^ 40)
        (bytes_of held.old) (bytes_of held.new) result }
    ensures none { IfOk result (λ found. found ≡ None) }
    ensures failures { S.from.failures source.new ≡ reading_failures result
        (S.from.failures source.old) }
{
    if !held.bytes().is_empty() {
        return Err(TextFault::TooLong);
    }
    match held.read(source) {
        Err(_) => Err(TextFault::Io),
        Ok(0) => Ok(None),
        Ok(_) => Err(TextFault::TooLong),
    }
}

/// Takes the line of so many bytes, with its line feed: its item, where it has one. Any other line stays held.
fn take_item<F: LineFormat>(held: &mut LineBuffer, count: usize, format: F) -> Option<F::Item>
    requires free { IsUnbroken (take count (bytes_of held.old)) }
    requires feed { drop count (bytes_of held.old) ≡ 10 ∷ drop (count + 1) (bytes_of held.old) }
    ensures some { IfSome result
        (λ item. IsItemLine F.grammar format item (bytes_of held.old) (bytes_of held.new)) }
    ensures none { IfNone result (IsBadLine F.grammar format (bytes_of held.old)) }
    ensures kept { IfNone result (bytes_of held.new ≡ bytes_of held.old) }
    ensures less { OnSome result (length (bytes_of held.new) < length (bytes_of held.old)) }
{
    let Some(item) = format.item_of(&held.bytes()[..count]) else {
        return None;
    };
    held.consume(count + 1);
    Some(item)
}
