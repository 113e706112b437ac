ghost use Rattle.tmw_trace.specs.Shared.{Puts};
ghost use Rattle.tmw_trace.specs.Text.{trace_text};

use crate::header::Header;
use crate::header_text::put_header;
use tmw_events::{Event, EventTexts};
use tmw_streams::{IoFault, Sink, put_lines};

/// Writes the text of a header and of events; for a `Trace`, pass its two fields. The text is a trace's if the
/// header's version has all the events and there are at most 2^40 of them. It takes no memory. After a failed write a
/// beginning of the text went out, and not all of it.
pub fn write_trace<K: Sink>(sink: &mut K, header: &Header, events: &[Event]) -> Result<(), IoFault>
    ensures { Puts K.to sink.old (trace_text header.now events.now) sink.new result }
{
    put_header(sink, header)?;
    put_lines::<EventTexts, Event, K>(sink, events)
}
