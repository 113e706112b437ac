ghost use Rattle.std.specs.Prelude.{◌≡◌, ◌+◌, ◌∷◌, ◌++◌, take, drop, IfSome, IfNone};
ghost use Rattle.tmw_lines.specs.LineBuffer.{bytes_of};
ghost use Rattle.tmw_lines.specs.NextLine.{ReadsHeader};
ghost use Rattle.tmw_lines.specs.LineFeeds.{line};
ghost use Rattle.tmw_lines.specs.TextFault.{IsUnbroken, HasBadHeader, reading_failures};

use crate::line_buffer::LineBuffer;
use crate::line_format::LineFormat;
use crate::line_piece::{LinePiece, next_piece};
use crate::long_line::{LineEnd, skip_line};
use crate::text_fault::TextFault;
use tmw_streams::Source;

/// Reads the first line of a text and returns its header, or its fault.
pub fn first_line<F: LineFormat, S: Source>(
    held: &mut LineBuffer,
    source: &mut S,
) -> Result<F::Header, TextFault>
    ensures reads { ReadsHeader F.grammar S.from (S.from.ended source.new) source.old source.new
        (bytes_of held.old) (bytes_of held.new) result }
    ensures failures { S.from.failures source.new ≡ reading_failures result
        (S.from.failures source.old) }
{
    match next_piece(held, source) {
        LinePiece::Line(length) => match take_header::<F>(held, length) {
            Some(header) => Ok(header),
            None => Err(TextFault::BadHeader),
        },
        LinePiece::End if held.bytes().is_empty() => Err(TextFault::BadHeader),
        LinePiece::End => Err(TextFault::Cut(1)),
        LinePiece::Failed => Err(TextFault::Io),
        LinePiece::Long => match skip_line(source) {
            LineEnd::Feed => Err(TextFault::BadHeader),
            LineEnd::End => Err(TextFault::Cut(1)),
            LineEnd::Failed => Err(TextFault::Io),
        },
    }
}

/// Takes the line of so many bytes, with its line feed: its header, where it has one. Any other line stays held.
fn take_header<F: LineFormat>(held: &mut LineBuffer, count: usize) -> Option<F::Header>
    requires free { IsUnbroken (take count (bytes_of held.old)) }
    requires feed { drop count (bytes_of held.old) ≡ 10 ∷ drop (count + 1) (bytes_of held.old) }
    ensures some { IfSome result
        (λ header. bytes_of held.old ≡ line (F.grammar.header_text header) ++ bytes_of held.new) }
    ensures fits { IfSome result F.grammar.FitsHeader }
    ensures none { IfNone result (HasBadHeader F.grammar (bytes_of held.old)) }
    ensures kept { IfNone result (bytes_of held.new ≡ bytes_of held.old) }
{
    let Some(header) = F::header_of(&held.bytes()[..count]) else {
        return None;
    };
    held.consume(count + 1);
    Some(header)
}
