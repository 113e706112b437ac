ghost use Rattle.tmw_trace.specs.Text.{trace_grammar};
ghost use Rattle.tmw_trace.specs.Lengths.{long_no_header, long_no_event};
ghost use Rattle.tmw_trace.specs.GrammarInjectivity.{trace_naming};

use crate::event_line::event_of;
use crate::give_event::give_event;
use crate::header::Header;
use crate::version::Version;
use tmw_events::Event;
use tmw_lines::{GiveResult, LineFormat, Lines, Taker};

/// A reader of a trace, line by line: its header, then one event after another.
pub type TraceLines = Lines<Version>;

/// The header's version says which events may follow.
impl LineFormat for Version {
    type Header = Header;

    type Item = Event;

    const UNREAD: Version = Version::One;

    ghost grammar = { trace_grammar };

    fn behind(header: &Header) -> Version {
        header.version
    }

    fn header_of(bytes: &[u8]) -> Option<Header> {
        crate::header_line::header_of(bytes)
    }

    fn item_of(self, bytes: &[u8]) -> Option<Event> {
        event_of(self, bytes)
    }

    #[inline(always)]
    fn give_first<T: Taker<Event>>(self, bytes: &[u8], taker: &mut T) -> GiveResult {
        give_event(self, bytes, taker)
    }

    ghost naming = { trace_naming };

    ghost long_header = { long_no_header };

    ghost long_item = { long_no_event };
}
