ghost use Rattle.std.specs.Prelude.{◌≡◌};
ghost use Rattle.tmw_events.specs.Text.{digit, kind_text, event_text};
ghost use Rattle.tmw_streams.specs.Transfers.{Puts};

use crate::event::{Event, Kind};
use crate::ix::Ix;
use tmw_streams::{IoFault, Sink, Texts, put_all, put_with_number};

/// The texts of events, as a trace's lines have them.
pub struct EventTexts;

impl Texts<Event> for EventTexts {
    ghost text = { event_text };

    fn put_text<K: Sink>(sink: &mut K, event: &Event) -> Result<(), IoFault> {
        put_event(sink, event)
    }
}

/// Writes the event's text, without a line feed. It takes no memory. After a failed write a beginning of the text went
/// out, and not all of it.
pub fn put_event<K: Sink>(sink: &mut K, event: &Event) -> Result<(), IoFault>
    ensures { Puts K.to sink.old (event_text event.now) sink.new result }
{
    put_all(sink, &[digit_of(event.thread), b' '])?;
    put_kind(sink, event.kind)
}

/// Writes the kind's text.
fn put_kind<K: Sink>(sink: &mut K, kind: Kind) -> Result<(), IoFault>
    ensures { Puts K.to sink.old (kind_text kind) sink.new result }
{
    match kind {
        Kind::R(register) => put_all(sink, &[b'R', b' ', digit_of(register)]),
        Kind::V(value) => put_with_number(sink, b"V ", value),
        Kind::W(register, value) => put_with_number(
            sink,
            &[b'W', b' ', digit_of(register), b' '],
            value,
        ),
        Kind::K => put_all(sink, b"K"),
        Kind::T => put_all(sink, b"T"),
        Kind::C => put_all(sink, b"C"),
        Kind::X => put_all(sink, b"X"),
        Kind::A => put_all(sink, b"A"),
        Kind::N(register, value) => put_with_number(
            sink,
            &[b'N', b' ', digit_of(register), b' '],
            value,
        ),
    }
}

/// The digit that names the thread or register.
fn digit_of(ix: Ix) -> u8
    ensures { result ≡ digit ix }
{
    b'0' + ix.get()
}
