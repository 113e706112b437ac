ghost use Rattle.std.specs.Prelude.{◌≡◌, ◌⊎◌, ℕ, ◌+◌, ◌<◌, ◌≤◌, ◌^◌, List, [], IfOk, IfErr, OnOk, OnErr, OnSome, Ok, Err, None};
ghost use Rattle.tmw_lines.specs.TextFault.{HasFirstLineFault, reading_failures};
ghost use Rattle.tmw_lines.specs.declared.text_fault.TextFault.{TextFault};
ghost use Rattle.tmw_streams.specs.Transfers.{Tells};

use crate::first_line::first_line;
use crate::give_lines::give_lines;
use crate::line_buffer::LineBuffer;
use crate::line_format::LineFormat;
use crate::line_length::length_before;
use crate::next_line::next_line;
use crate::taker::{Stop, Taker};
use crate::text_fault::TextFault;
use tmw_streams::Source;

/// How far a reader has come.
#[derive(Clone, Copy)]
pub enum ReaderState {
    /// Nothing was read: the header comes first.
    New,
    /// The header was given, and a line may follow.
    Reading,
    /// The text has ended, or an item was requested before the header.
    Over,
    /// A fault was found, which stays.
    Failed(TextFault),
}

/// A reader of a text, line by line, which holds at most 4,096 bytes of it. Call `header` once; if it returns `Ok`,
/// each call of `next` returns one item. All calls take the same source, which nobody else reads meanwhile. The
/// reader allocates nothing, so `Memory` is not among its faults.
#[derive(Drop)]
pub struct Lines<F> {
    held: LineBuffer,
    format: F,
    count: u64,
    state: ReaderState,
    ghost few: { count ≤ 2 ^ 40 },
}

impl<F: LineFormat> Lines<F> {
    ghost use Rattle.tmw_lines.specs.GiveResult.{GivesItems, GivesUpTo};
    ghost use Rattle.tmw_lines.specs.LineFeeds.{HoldsFront, front_of};
    ghost use Rattle.tmw_lines.specs.Lines.{IsNew, IsReading, IsOver, HasFailed, HasRead, format_by, items_given, unread, unread_bytes, ReadsNext};

    /// Makes a reader that has read nothing.
    pub const fn new() -> Lines<F>
        ensures { IsNew result }
    {
        Lines {
            held: LineBuffer::new(),
            format: F::UNREAD,
            count: 0,
            state: ReaderState::New,
        }
    }

    /// Reads the first line and returns the header, or the line's fault.
    pub fn header<S: Source>(&mut self, source: &mut S) -> Result<F::Header, TextFault>
        requires { IsNew self.old }
        ensures header { IfOk result (λ header. (bytes : List ℕ)
            × Tells S.from source.old bytes source.new
            × HasRead F.grammar self.new header [] bytes) }
        ensures fault { IfErr result (λ fault. (bytes : List ℕ)
            × Tells S.from source.old bytes source.new
            × HasFirstLineFault F.grammar (S.from.ended source.new) bytes fault
            × HoldsFront (unread_bytes self.new) bytes) }
        ensures stays { IfErr result (HasFailed self.new) }
        ensures failures { S.from.failures source.new ≡ reading_failures result
            (S.from.failures source.old) }
    {
        match first_line::<F, S>(&mut self.held, source) {
            Ok(header) => {
                self.format = F::behind(&header);
                self.state = ReaderState::Reading;
                Ok(header)
            }
            Err(fault) => {
                self.state = ReaderState::Failed(fault);
                Err(fault)
            }
        }
    }

    /// Gives the taker the items of lines that the bytes held begin with, and reads nothing. It gives none or more:
    /// as many as the format reads in one pass, none near 2^40 lines. If the taker stops at an item, that item's line is the last
    /// that was read. Before the header, and after `None` or a fault, it gives nothing and changes nothing.
    #[inline(always)]
    pub fn give_held<T: Taker<F::Item>>(&mut self, taker: &mut T) -> Result<(), Stop>
        requires { T.taking.counts taker.old (items_given self.old) }
        ensures gives { OnOk result
            (GivesItems F.grammar T.taking self.old self.new taker.old taker.new) }
        ensures counted { OnOk result (T.taking.counts taker.new (items_given self.new)) }
        ensures stops { OnErr result
            (GivesUpTo F.grammar T.taking self.old self.new taker.old taker.new) }
        ensures fewer { unread self.new ≤ unread self.old }
        ensures idle { (IsReading self.old → ⊥) → (result ≡ Ok tt) × (self.new ≡ self.old)
            × (taker.new ≡ taker.old) }
    {
        match self.state {
            ReaderState::Reading => {}
            ReaderState::New | ReaderState::Over | ReaderState::Failed(_) => return Ok(()),
        }
        let run = give_lines(self.format, self.held.bytes(), self.count, taker);
        self.held.consume(run.length);
        self.count = run.count;
        if run.stopped { Err(Stop) } else { Ok(()) }
    }

    /// Reads the next line and returns its item, `None` at the end of the text, or the fault of all bytes read. After
    /// `None` or a fault each call returns the same and reads nothing. A call before the header also returns `None`
    /// and reads nothing; the header can then no longer be read.
    pub fn next<S: Source>(&mut self, source: &mut S) -> Result<Option<F::Item>, TextFault>
        ensures reads { ReadsNext F.grammar S.from source.old source.new self.old self.new result }
        ensures falls { IfOk result (λ found. OnSome found
            (S.from.left source.new + unread self.new < S.from.left source.old + unread self.old)) }
        ensures failures { IsReading self.old → S.from.failures source.new
            ≡ reading_failures result (S.from.failures source.old) }
        ensures idle { (IsReading self.old → ⊥) → source.new ≡ source.old }
        ensures none_again { IsNew self.old ⊎ IsOver self.old → result ≡ Ok None }
        ensures fault_again { (fault : TextFault) → HasFailed self.old fault
            → (result ≡ Err fault) × (self.new ≡ self.old) }
    {
        match self.state {
            ReaderState::Failed(fault) => return Err(fault),
            ReaderState::Over => return Ok(None),
            ReaderState::New => {
                self.state = ReaderState::Over;
                return Ok(None);
            }
            ReaderState::Reading => {}
        }
        match next_line(&mut self.held, source, self.format, self.count) {
            Ok(Some(item)) => {
                self.count += 1;
                Ok(Some(item))
            }
            Ok(None) => {
                self.state = ReaderState::Over;
                Ok(None)
            }
            Err(fault) => {
                self.state = ReaderState::Failed(fault);
                Err(fault)
            }
        }
    }

    /// Returns the format by which items are read.
    pub const fn format(&self) -> F
        ensures { result ≡ format_by self.now }
    {
        self.format
    }

    /// Returns the bytes held up to the first line feed, or all. After a bad line, or one that is cut, they are how
    /// that line begins: all of it, or its first 4,096 bytes.
    pub fn front(&self) -> &[u8]
        ensures { result.now ≡ front_of (unread_bytes self.now) }
    {
        let bytes = self.held.bytes();
        &bytes[..length_before(bytes, b'\n')]
    }
}
