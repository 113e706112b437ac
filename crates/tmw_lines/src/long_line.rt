ghost use Rattle.std.specs.Prelude.{◌≡◌};
ghost use Rattle.tmw_lines.specs.LongLine.{Skips, line_end_failures};

use crate::line_buffer::LineBuffer;
use crate::line_length::length_before;
use tmw_streams::Source;

/// How a line ends.
#[derive(Clone, Copy, PartialEq, Eq, Debug)]
pub enum LineEnd {
    /// With its line feed.
    Feed,
    /// With the source's end.
    End,
    /// Unknown: a read failed.
    Failed,
}

/// Reads on to the end of a line that is longer than can be held, and drops what is read.
pub fn skip_line<S: Source>(source: &mut S) -> LineEnd
    ensures skips { Skips S.from (S.from.ended source.new) source.old source.new result }
    ensures failures { S.from.failures source.new ≡ line_end_failures result
        (S.from.failures source.old) }
{
    let mut rest = LineBuffer::new();
    'parts: loop {
        rest.clear();
        match rest.read(source) {
            Err(_) => return LineEnd::Failed,
            Ok(0) => return LineEnd::End,
            Ok(_) => {}
        }
        let bytes = rest.bytes();
        if length_before(bytes, b'\n') < bytes.len() {
            return LineEnd::Feed;
        }
    }
}
