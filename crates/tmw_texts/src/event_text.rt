ghost use Rattle.tmw_texts.specs.Shared.{event_text, held_bytes, kind_text};
ghost use Rattle.std.specs.Prelude.{IfOk, OnOk, ◌++◌, ◌≡◌};

use std::alloc::{AllocError, Global};
use tmw_events::{Event, put_event};
use tmw_streams::MemorySink;

/// Adds the event's text, as the lines of a trace have it.
pub fn push_event(text: &mut Vec<u8>, event: &Event) -> Result<(), AllocError>
    ensures { OnOk result (text.new.items ≡ text.old.items ++ event_text event.now) }
{
    let sink = written(*text.allocator(), event)?;
    text.extend_from_slice(sink.bytes())?;
    Ok(())
}

/// Adds the text of the event's kind, which follows the thread and a space there.
pub fn push_kind(text: &mut Vec<u8>, event: &Event) -> Result<(), AllocError>
    ensures { OnOk result (text.new.items ≡ text.old.items ++ kind_text event.now.kind) }
{
    let sink = written(*text.allocator(), event)?;
    text.extend_from_slice(&sink.bytes()[2..])?;
    Ok(())
}

/// Writes the event's text to memory.
fn written(alloc: Global, event: &Event) -> Result<MemorySink, AllocError>
    ensures { IfOk result (λ sink. held_bytes sink ≡ event_text event.now) }
{
    let mut sink = MemorySink::new(alloc);
    match put_event(&mut sink, event) {
        Ok(()) => Ok(sink),
        Err(_) => Err(AllocError),
    }
}
