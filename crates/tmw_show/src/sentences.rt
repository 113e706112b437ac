//! The sentences that tell why a window is violated. Values that are among some have names.
ghost use Rattle.tmw_show.specs.Shared.{members};
ghost use Rattle.std.specs.Prelude.{IfOk, OnOk, length, string_bytes, ◌++◌, ◌+◌, ◌<◌, ◌^◌, ◌≡◌};
ghost use Rattle.tmw_show.specs.Sentences.{assumption_text, case_text, changed_first_text, derivations_text, end_text, ending_text, framed, header_text, read_first_text, reason_text, source_text, state_item, step_text, steps_text, told_text};

use crate::assumed_source::is_assumed;
use crate::frame::Frame;
use crate::origin_sentence::told_by;
use crate::sentence_parts::{Before, Left, Read, Writer};
use std::alloc::{AllocError, Global};
use tmw_reason::{Contradiction, Reason, ReasonCase, ReasonStep, ValueSource};
use tmw_texts::{ItemText, TransactionName, Value, push_each, push_list};
use tmw_window::ShownWindow;

/// Adds the sentences of the reason why a window is violated before which so many events stand. If it has several cases,
/// each begins with the states for which it is said.
pub fn push_reason(
    text: &mut Vec<u8>,
    frame: Frame,
    values: &[u64],
    before: u128,
    showing: &ShownWindow,
    reason: &Reason,
) -> Result<(), AllocError>
    requires { before + length showing.now.events.items < 2 ^ 128 }
    ensures { let w = showing.now in OnOk result (text.new.items ≡ text.old.items
        ++ reason_text frame values.now before (members w.states) w.events.items reason.now) }
{
    let several = reason.cases.len() > 1;
    for case in &reason.cases {
        push_case(text, frame, values, before, showing, several, case)?;
    }
    Ok(())
}

/// Adds the sentences of a case, of several or not.
fn push_case(
    text: &mut Vec<u8>,
    frame: Frame,
    values: &[u64],
    before: u128,
    showing: &ShownWindow,
    several: bool,
    case: &ReasonCase,
) -> Result<(), AllocError>
    requires { before + length showing.now.events.items < 2 ^ 128 }
    ensures { let w = showing.now in OnOk result (text.new.items ≡ text.old.items
        ++ case_text frame values.now before (members w.states) w.events.items several case.now) }
{
    if several {
        push_header(text, frame, &case.states)?;
    }
    push_derivations(text, frame, values, before, showing, case)
}

/// Adds the sentences of each derivation of the case.
fn push_derivations(
    text: &mut Vec<u8>,
    frame: Frame,
    values: &[u64],
    before: u128,
    showing: &ShownWindow,
    case: &ReasonCase,
) -> Result<(), AllocError>
    requires { before + length showing.now.events.items < 2 ^ 128 }
    ensures { let w = showing.now in OnOk result (text.new.items ≡ text.old.items
        ++ derivations_text frame values.now before (members w.states) w.events.items case.now) }
{
    for derivation in &case.derivations {
        push_steps(text, frame, values, derivation.assumed, &derivation.steps)?;
        push_end(text, frame, values, before, showing, case, &derivation.end)?;
    }
    Ok(())
}

/// Adds the sentences of steps, of which so many are assumed.
fn push_steps(
    text: &mut Vec<u8>,
    frame: Frame,
    values: &[u64],
    assumed: usize,
    steps: &[ReasonStep],
) -> Result<(), AllocError>
    ensures { OnOk result (text.new.items
        ≡ text.old.items ++ steps_text frame values.now assumed steps.now) }
{
    let first = assumed.min(steps.len());
    let assumption = StepText {
        frame,
        values,
        assumed: &steps[..first],
        is_assumed: true,
    };
    push_each(text, &assumption, assumption.assumed)?;
    let step = StepText {
        is_assumed: false,
        ..assumption
    };
    push_each(text, &step, &steps[first..])
}

/// Adds the sentences of what the steps come to: where the value comes from that no order from the case's states explains,
/// and that.
fn push_end(
    text: &mut Vec<u8>,
    frame: Frame,
    values: &[u64],
    before: u128,
    showing: &ShownWindow,
    case: &ReasonCase,
    end: &Contradiction,
) -> Result<(), AllocError>
    requires { before + length showing.now.events.items < 2 ^ 128 }
    ensures { let w = showing.now in OnOk result (text.new.items ≡ text.old.items
        ++ ending_text frame values.now before (members w.states) w.events.items case.now end.now) }
{
    let alloc = *text.allocator();
    let told = told_by(alloc, values, before, showing, case, end)?;
    push_sentence(text, frame, &told)?;
    let end = end_text(alloc, values, end)?;
    push_sentence(text, frame, &end)
}

/// The sentence of a step that is assumed, or of one that follows from the steps that are assumed.
#[derive(Drop)]
struct StepText<'a> {
    frame: Frame,
    values: &'a [u64],
    assumed: &'a [ReasonStep],
    is_assumed: bool,
}

impl ItemText<ReasonStep> for StepText<'_> {
    ghost part = { λ own step.
        framed own.frame (told_text own.is_assumed own.assumed.now own.values.now step) };

    fn push(&self, text: &mut Vec<u8>, step: &ReasonStep) -> Result<(), AllocError> {
        let alloc = *text.allocator();
        let sentence = if self.is_assumed {
            assumption_text(alloc, self.values, step)?
        } else {
            step_text(alloc, self.values, self.assumed, step)?
        };
        push_sentence(text, self.frame, &sentence)
    }
}

/// Adds a sentence with what stands around it, unless it is empty.
fn push_sentence(text: &mut Vec<u8>, frame: Frame, sentence: &str) -> Result<(), AllocError>
    ensures { OnOk result (text.new.items ≡ text.old.items ++ framed frame sentence.now) }
{
    if sentence.is_empty() {
        return Ok(());
    }
    match frame {
        Frame::Line => {
            text.extend_from_slice(b"    why    ")?;
            text.extend_from_slice(sentence.as_bytes())?;
            text.push(b'\n')?;
        }
        Frame::Clause => {
            text.extend_from_slice(sentence.as_bytes())?;
            text.extend_from_slice(b"; ")?;
        }
    }
    Ok(())
}

/// The number of the state at a place, behind a comma.
#[derive(Drop)]
struct StateNumber;

impl ItemText<usize> for StateNumber {
    ghost part = { λ own place. state_item place };

    fn push(&self, text: &mut Vec<u8>, place: &usize) -> Result<(), AllocError> {
        let number = *place as u128 + 1;
        let item = format!(in *text.allocator(); ", state line {number}")?;
        text.extend_from_slice(item.as_bytes())?;
        Ok(())
    }
}

/// Tells for which states a case is said.
fn push_header(text: &mut Vec<u8>, frame: Frame, places: &[usize]) -> Result<(), AllocError>
    ensures { OnOk result
        (text.new.items ≡ text.old.items ++ framed frame (header_text places.now)) }
{
    let (opening, end) = match frame {
        Frame::Line => ("    why    from", ":\n"),
        Frame::Clause => ("from", ":; "),
    };
    text.extend_from_slice(opening.as_bytes())?;
    push_list(text, &StateNumber, places)?;
    text.extend_from_slice(end.as_bytes())?;
    Ok(())
}

/// Tells who left a value that was read, if it did not stand there from the start.
fn source_text(alloc: Global, values: &[u64], source: &ValueSource) -> Result<String, AllocError>
    ensures { IfOk result (λ text. string_bytes text
        ≡ source_text values.now source.now source.now.writer) }
{
    let Some(writer) = source.writer else {
        return Ok(String::new(alloc));
    };
    let (read, so) = (Read(values, *source), Before(writer, source.reader));
    let writer = TransactionName(writer);
    format!(in alloc; "{read}, which only {writer}'s commit can have left: {so}")
}

/// Returns the sentence that the reader stands before the rival, which leaves another value. Of a source that is assumed, the
/// sentence does not say that only the start can have left the value.
fn read_first_text(
    alloc: Global,
    values: &[u64],
    is_assumed: bool,
    source: &ValueSource,
    rival: usize,
    left: u64,
) -> Result<String, AllocError>
    ensures { IfOk result (λ text. string_bytes text
        ≡ read_first_text values.now is_assumed source.now rival left) }
{
    let (read, so) = (Read(values, *source), Before(source.reader, rival));
    let left = Left(values, rival, left);
    match (source.writer, is_assumed) {
        (None, false) => format!(in alloc;
            "{read}, which only the start can have left, and {left} there: {so}"
        ),
        (None, true) | (Some(_), _) => format!(in alloc; "{read}, where {left}: {so}"),
    }
}

/// Tells that the rival, which leaves another value, stands before the source's writer.
fn changed_first_text(
    alloc: Global,
    values: &[u64],
    rival: usize,
    left: u64,
    source: &ValueSource,
) -> Result<String, AllocError>
    ensures { IfOk result (λ text. string_bytes text
        ≡ changed_first_text values.now rival left source.now) }
{
    let (left, register) = (Left(values, rival, left), source.register.get());
    let (reader, value) = (TransactionName(source.reader), Value(values, source.value));
    let (rival, writer) = (TransactionName(rival), Writer(source.writer));
    format!(in alloc;
        "{left} in register {register}, where {reader} read {value}: {rival} before {writer}"
    )
}

/// Returns the sentence of a step, if these steps are assumed.
fn step_text(
    alloc: Global,
    values: &[u64],
    assumed: &[ReasonStep],
    step: &ReasonStep,
) -> Result<String, AllocError>
    ensures { IfOk result
        (λ text. string_bytes text ≡ step_text values.now assumed.now step.now) }
{
    match *step {
        ReasonStep::RealTime(one, other) => {
            let so = Before(one, other);
            let (one, other) = (TransactionName(one), TransactionName(other));
            format!(in alloc; "{one} ended before {other} began: {so}")
        }
        ReasonStep::From(source) => source_text(alloc, values, &source),
        ReasonStep::TooLate(source) => {
            let (read, writer) = (Read(values, source), Writer(source.writer));
            format!(in alloc; "{read}, not from {writer}, which comes after it")
        }
        ReasonStep::Overwritten(source, rival, left) => {
            let (read, writer) = (Read(values, source), Writer(source.writer));
            let left = Left(values, rival, left);
            format!(in alloc; "{read}, not from {writer}: {left} there in between")
        }
        ReasonStep::ReadFirst(source, rival, left) => {
            let is_assumed = is_assumed(assumed, &source);
            read_first_text(alloc, values, is_assumed, &source, rival, left)
        }
        ReasonStep::ChangedFirst(rival, left, source) => {
            changed_first_text(alloc, values, rival, left, &source)
        }
        ReasonStep::Through(..) => Ok(String::new(alloc)),
    }
}

/// Tells what a derivation assumes: that a value comes from there.
fn assumption_text(alloc: Global, values: &[u64], step: &ReasonStep) -> Result<String, AllocError>
    ensures { IfOk result (λ text. string_bytes text ≡ assumption_text values.now step.now) }
{
    let ReasonStep::From(source) = *step else {
        return Ok(String::new(alloc));
    };
    let (read, writer) = (Read(values, source), Writer(source.writer));
    format!(in alloc; "if {read} as {writer} left it:")
}

/// Returns the sentence of what the steps come to.
fn end_text(alloc: Global, values: &[u64], end: &Contradiction) -> Result<String, AllocError>
    ensures { IfOk result (λ text. string_bytes text ≡ end_text values.now end.now) }
{
    match *end {
        Contradiction::Cycle(place) => {
            let tx = TransactionName(place);
            format!(in alloc; "{tx} would come before itself")
        }
        Contradiction::NoSource(reader, register, value) => {
            let source = ValueSource {
                reader,
                register,
                value,
                writer: None,
            };
            let read = Read(values, source);
            format!(in alloc;
                "{read}: the start does not have it, and no other transaction that may have committed left it"
            )
        }
        Contradiction::Unlike(reader, register, expected, read) => {
            let source = ValueSource {
                reader,
                register,
                value: read,
                writer: None,
            };
            let read = Read(values, source);
            let expected = Value(values, expected);
            format!(in alloc; "{read}, where its own earlier calls make it {expected}")
        }
    }
}
