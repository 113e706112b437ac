ghost use Rattle.std.specs.Prelude.{◌≡◌, ℕ, ◌<◌, ◌≤◌, ◌^◌, List, length, IfSome, IfNone};
ghost use Rattle.tmw_lines.specs.GiveResult.{IsGiven};
ghost use Rattle.tmw_lines.specs.Grammar.{Grammar, IsNaming, IsNoHeader, IsNoItem};

use crate::give_result::GiveResult;
use crate::taker::Taker;

/// What the lines of a text are: the first a header, and each other an item. A value is the format of the lines after
/// a header, and says which items these may be.
pub trait LineFormat: Copy {
    /// What the first line tells.
    type Header: Copy;
    /// What each other line tells.
    type Item: Copy;

    /// The format that a reader keeps before it has read a header. No promise speaks of it.
    const UNREAD: Self;

    /// The texts of headers and items, and which of them a text may have.
    ghost grammar: { Grammar Self Self.Header Self.Item };

    /// Returns the format of the lines after this header.
    fn behind(header: &Self::Header) -> Self
        ensures { result ≡ grammar.format_of header.now };

    /// Returns the header whose text these bytes are, and `None` for all other bytes. The text is a first line
    /// without its line feed.
    fn header_of(bytes: &[u8]) -> Option<Self::Header>
        ensures some { IfSome result (λ header. bytes.now ≡ grammar.header_text header) }
        ensures fits { IfSome result grammar.FitsHeader }
        ensures none { IfNone result (IsNoHeader grammar bytes.now) };

    /// Returns the item of this format whose text these bytes are, and `None` for all other bytes. The text is a line
    /// without its line feed.
    fn item_of(self, bytes: &[u8]) -> Option<Self::Item>
        ensures some { IfSome result (λ item. bytes.now ≡ grammar.item_text item) }
        ensures fits { IfSome result (grammar.FitsItem self) }
        ensures none { IfNone result (IsNoItem grammar self bytes.now) };

    /// Gives the taker the item of this format whose line, with its line feed, these bytes begin with. A format that
    /// can read the line in one pass does so here. `Nothing` says nothing about the bytes: the reader then looks for
    /// the line's end and calls `item_of`.
    fn give_first<T: Taker<Self::Item>>(self, bytes: &[u8], taker: &mut T) -> GiveResult
        requires { (count : ℕ) × (count < 2 ^ 40) × T.taking.counts taker.old count }
        ensures { IsGiven grammar T.taking self bytes.now taker.old taker.new result }
    {
        // A format that does nothing here uses neither.
        let _bytes = bytes;
        let _taker = &mut *taker;
        GiveResult::Nothing
    }

    /// No text of a header or an item has a line feed, and each names what it is the text of.
    ghost naming: { IsNaming grammar };
    /// A header's line is shorter than what can be held.
    ghost long_header: { (text : List ℕ) → 4096 ≤ length text → IsNoHeader grammar text };
    /// An item's line is shorter than what can be held.
    ghost long_item: { (format : Self) (text : List ℕ) → 4096 ≤ length text → IsNoItem grammar format text };
}
