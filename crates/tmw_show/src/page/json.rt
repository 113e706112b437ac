ghost use Rattle.tmw_show.specs.Shared.{members};
ghost use Rattle.std.specs.Prelude.{IfOk, OnOk, [], length, string_bytes, ◌++◌, ◌+◌, ◌<◌, ◌^◌, ◌∷◌, ◌≡◌};
ghost use Rattle.tmw_show.specs.NeededEvents.{reason_of};
ghost use Rattle.tmw_show.specs.Page.{about_json, criterion_name, digit, event_json, json_text, mark_json, needed_json, state_json, why_json, window_json};

use crate::frame::Frame;
use crate::needed_events::NeededEvents;
use crate::run_verdict::{RunVerdict, marked_at, wrong_of};
use crate::sentences::push_reason;
use crate::shown_trace::ShownTrace;
use std::alloc::{AllocError, Global};
use tmw_cuts::State;
use tmw_defs::Criterion;
use tmw_events::{Event, Registers};
use tmw_report::report_by;
use tmw_texts::{ItemText, push_each, push_event, push_list, push_values};

/// Adds what is shown by this criterion, of a trace before which so many events of the run come, as one JSON object: the
/// members of the report, the criterion, how many registers there are and how many events of the run stand before the
/// window; its states and its events; and what is wrong, if anything is.
pub fn push_json(
    alloc: Global,
    text: &mut Vec<u8>,
    criterion: Criterion,
    before: u64,
    shown: &ShownTrace,
) -> Result<(), AllocError>
    ensures { OnOk result
        (text.new.items ≡ text.old.items ++ json_text criterion before shown.now) }
{
    let showing = &shown.showing;
    let earlier = before as u128 + showing.from as u128;
    let about = about_json(alloc, criterion, earlier, shown)?;
    text.extend_from_slice(about.as_bytes())?;
    push_window(
        text,
        shown.registers,
        showing.states.states(),
        &showing.events,
    )?;
    let told = RunVerdict {
        criterion,
        before,
        verdict: showing.verdict,
        broken: showing.broken,
    };
    push_mark(text, told)?;
    push_needed(text, &shown.needed)?;
    push_why(text, earlier, shown)?;
    text.extend_from_slice(b"}\n")?;
    Ok(())
}

/// Returns the members that tell of the whole run, of which so many events stand before the window.
fn about_json(
    alloc: Global,
    criterion: Criterion,
    before: u128,
    shown: &ShownTrace,
) -> Result<String, AllocError>
    ensures { IfOk result (λ text. string_bytes text ≡ about_json criterion before shown.now) }
{
    let showing = &shown.showing;
    let line = report_by(alloc, criterion, showing.fed, &showing.verdict)?;
    let name = criterion_name(criterion);
    let registers = shown.registers.get();
    format!(in alloc;
        "{{\"report\":{line},\"criterion\":\"{name}\",\"registers\":{registers},\"before\":{before}"
    )
}

fn criterion_name(criterion: Criterion) -> &'static str
    ensures { result.now ≡ criterion_name criterion }
{
    match criterion {
        Criterion::Opacity => "opacity",
        Criterion::Strict => "strict",
    }
}

/// Adds the states from which the window begins, and its events.
fn push_window(
    text: &mut Vec<u8>,
    registers: Registers,
    states: &[State],
    events: &[Event],
) -> Result<(), AllocError>
    ensures { OnOk result
        (text.new.items ≡ text.old.items ++ window_json registers states.now events.now) }
{
    text.extend_from_slice(b",\"states\":[")?;
    push_list(text, &StateString { registers }, states)?;
    text.extend_from_slice(b"],\"events\":[")?;
    push_list(text, &EventString, events)?;
    text.push(b']')?;
    Ok(())
}

/// A state as a string, after a comma.
#[derive(Drop)]
struct StateString {
    registers: Registers,
}

impl ItemText<State> for StateString {
    ghost part = { λ own state. state_json own.registers state };

    fn push(&self, text: &mut Vec<u8>, state: &State) -> Result<(), AllocError> {
        text.extend_from_slice(b",\"")?;
        push_values(text, &state[..self.registers.get() as usize])?;
        text.push(b'"')?;
        Ok(())
    }
}

/// An event as a string, after a comma: its line in a trace.
#[derive(Drop)]
struct EventString;

impl ItemText<Event> for EventString {
    ghost part = { λ own event. event_json event };

    fn push(&self, text: &mut Vec<u8>, event: &Event) -> Result<(), AllocError> {
        text.extend_from_slice(b",\"")?;
        push_event(text, event)?;
        text.push(b'"')?;
        Ok(())
    }
}

/// Adds the number of the event at which something is wrong, and the text of the verdict, if the verdict names an event.
fn push_mark(text: &mut Vec<u8>, told: RunVerdict) -> Result<(), AllocError>
    ensures { OnOk result (text.new.items ≡ text.old.items ++ mark_json told) }
{
    if let Some(at) = marked_at(told) {
        let wrong = wrong_of(told);
        let mark = format!(in *text.allocator(); ",\"mark\":{at},\"verdict_text\":\"{wrong}\"")?;
        text.extend_from_slice(mark.as_bytes())?;
    }
    Ok(())
}

/// Adds a digit for each event, if it is asked why a window is violated that is.
fn push_needed(text: &mut Vec<u8>, needed: &NeededEvents) -> Result<(), AllocError>
    ensures { OnOk result (text.new.items ≡ text.old.items ++ needed_json needed.now) }
{
    if let NeededEvents::Part { marks, .. } = needed {
        text.extend_from_slice(b",\"needed\":\"")?;
        push_each(text, &MarkDigit, marks)?;
        text.push(b'"')?;
    }
    Ok(())
}

/// Adds the reason, if one is told, of a window before which so many events stand.
fn push_why(text: &mut Vec<u8>, before: u128, shown: &ShownTrace) -> Result<(), AllocError>
    requires { before + length shown.now.showing.events.items < 2 ^ 128 }
    ensures { let w = shown.now.showing in OnOk result (text.new.items ≡ text.old.items
        ++ why_json before (members w.states) w.events.items (reason_of shown.now.needed)) }
{
    if let NeededEvents::Part {
        reason: Some(reason),
        ..
    } = &shown.needed
    {
        text.extend_from_slice(b",\"why\":\"")?;
        push_reason(text, Frame::Clause, &[], before, &shown.showing, reason)?;
        text.push(b'"')?;
    }
    Ok(())
}

/// A mark as a digit.
#[derive(Drop)]
struct MarkDigit;

impl ItemText<bool> for MarkDigit {
    ghost part = { λ own mark. digit mark ∷ [] };

    fn push(&self, text: &mut Vec<u8>, mark: &bool) -> Result<(), AllocError> {
        text.push(if *mark { b'1' } else { b'0' })?;
        Ok(())
    }
}
