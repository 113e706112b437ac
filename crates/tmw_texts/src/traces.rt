ghost use Rattle.tmw_texts.specs.Shared.{held_bytes, line};
ghost use Rattle.std.specs.Prelude.{IfOk, OnOk, ◌++◌, ◌≡◌};
ghost use Rattle.tmw_texts.specs.TracesText.{events_text, start_text, traces_text};

use crate::item_text::{ItemText, push_each};
use crate::numbers::push_values;
use std::alloc::{AllocError, Global};
use tmw_cuts::State;
use tmw_events::{Event, EventTexts, Registers};
use tmw_streams::{MemorySink, put_lines};

/// Adds the traces of these events from each of these states, one after the other.
pub fn push_traces(
    text: &mut Vec<u8>,
    registers: Registers,
    events: &[Event],
    states: &[State],
) -> Result<(), AllocError>
    ensures { OnOk result
        (text.new.items ≡ text.old.items ++ traces_text registers events.now states.now) }
{
    let sink = written(*text.allocator(), events)?;
    let lines = sink.bytes();
    push_each(text, &TraceFrom { registers, lines }, states)
}

/// The trace of events, whose lines these are, from a state.
#[derive(Drop)]
struct TraceFrom<'a> {
    registers: Registers,
    lines: &'a [u8],
}

impl ItemText<State> for TraceFrom<'_> {
    ghost part = { λ own state. line (start_text own.registers state) ++ own.lines.now };

    fn push(&self, text: &mut Vec<u8>, state: &State) -> Result<(), AllocError> {
        push_start(text, self.registers, state)?;
        text.extend_from_slice(self.lines)?;
        Ok(())
    }
}

/// Adds the header's line.
fn push_start(text: &mut Vec<u8>, registers: Registers, state: &State) -> Result<(), AllocError>
    ensures { OnOk result
        (text.new.items ≡ text.old.items ++ line (start_text registers state.now)) }
{
    text.extend_from_slice(b"opacity-trace 2 ")?;
    text.push(b'0' + registers.get())?;
    push_values(text, &state[..registers.get() as usize])?;
    text.push(b'\n')?;
    Ok(())
}

/// Writes a line for each event to memory.
fn written(alloc: Global, events: &[Event]) -> Result<MemorySink, AllocError>
    ensures { IfOk result (λ sink. held_bytes sink ≡ events_text events.now) }
{
    let mut sink = MemorySink::new(alloc);
    match put_lines::<EventTexts, Event, MemorySink>(&mut sink, events) {
        Ok(()) => Ok(sink),
        Err(_) => Err(AllocError),
    }
}
