ghost use Rattle.tmw_show.specs.Shared.{members, traces_text};
ghost use Rattle.std.specs.Prelude.{IfOk, OnOk, length, ◌++◌, ◌+◌, ◌<◌, ◌^◌, ◌≡◌};
ghost use Rattle.tmw_show.specs.RunShow.{drawn_text, shown_events, shown_text};
ghost use Rattle.tmw_show.specs.NeededEvents.{reason_of};
ghost use Rattle.tmw_show.specs.Sentences.{found_text};
ghost use Rattle.tmw_show.specs.declared.frame.Frame.TheVariants.{Line};

use crate::frame::Frame;
use crate::needed_events::{NeededEvents, marks_of, push_needed};
use crate::page::page_text;
use crate::run_verdict::RunVerdict;
use crate::sentences::push_reason;
use crate::shown_trace::ShownTrace;
use crate::window_text::push_window;
use std::alloc::{AllocError, Global};
use tmw_defs::Criterion;
use tmw_kept::kept_of;
use tmw_options::Form;
use tmw_report::report_by;
use tmw_texts::{StateLine, long_values, push_each, push_traces};

/// Makes the text of what is shown by this criterion, in this form, of a trace before which so many events of the run
/// come. It fails only after a failed allocation.
pub fn shown_text(
    alloc: Global,
    criterion: Criterion,
    before: u64,
    form: Form,
    shown: &ShownTrace,
) -> Result<Vec<u8>, AllocError>
    ensures { IfOk result (λ text. text.items ≡ shown_text criterion before form shown.now) }
{
    match form {
        Form::Drawing => drawn_text(alloc, criterion, before, shown),
        Form::Traces => traces_text(alloc, shown),
        Form::Page => page_text(alloc, criterion, before, shown),
    }
}

/// The report's line, the states from which the last window begins, and its events.
fn drawn_text(
    alloc: Global,
    criterion: Criterion,
    before: u64,
    shown: &ShownTrace,
) -> Result<Vec<u8>, AllocError>
    ensures { IfOk result (λ text. text.items ≡ drawn_text criterion before shown.now) }
{
    let showing = &shown.showing;
    let mut text = Vec::new(alloc);
    let report = report_by(alloc, criterion, showing.fed, &showing.verdict)?;
    text.extend_from_slice(report.as_bytes())?;
    let line = StateLine {
        registers: shown.registers,
    };
    push_each(&mut text, &line, showing.states.states())?;
    push_needed(&mut text, &shown.needed, &showing.events)?;
    let told = RunVerdict {
        criterion,
        before,
        verdict: showing.verdict,
        broken: showing.broken,
    };
    let earlier = before as u128 + showing.from as u128;
    let marks = marks_of(alloc, &shown.needed, &showing.events)?;
    push_window(&mut text, told, earlier, &marks, &showing.events)?;
    let kept = kept_of(alloc, &marks, &showing.events)?;
    let values = long_values(alloc, &kept)?;
    push_reason_of(&mut text, earlier, values.values(), shown)?;
    Ok(text)
}

/// Adds the reason that is told, if one is, of a window before which so many events stand. These values have names.
fn push_reason_of(
    text: &mut Vec<u8>,
    before: u128,
    values: &[u64],
    shown: &ShownTrace,
) -> Result<(), AllocError>
    requires { before + length shown.now.showing.events.items < 2 ^ 128 }
    ensures { let w = shown.now.showing in OnOk result (text.new.items ≡ text.old.items
        ++ found_text Line values.now before (members w.states) w.events.items
        (reason_of shown.now.needed)) }
{
    match &shown.needed {
        NeededEvents::Part {
            reason: Some(reason),
            ..
        } => push_reason(text, Frame::Line, values, before, &shown.showing, reason),
        _ => Ok(()),
    }
}

/// The traces of the events that are shown.
fn traces_text(alloc: Global, shown: &ShownTrace) -> Result<Vec<u8>, AllocError>
    ensures { IfOk result (λ text. text.items
        ≡ traces_text shown.now.registers (shown_events shown.now) (members shown.now.showing.states)) }
{
    let showing = &shown.showing;
    let marks = marks_of(alloc, &shown.needed, &showing.events)?;
    let events = kept_of(alloc, &marks, &showing.events)?;
    let mut text = Vec::new(alloc);
    push_traces(&mut text, shown.registers, &events, showing.states.states())?;
    Ok(text)
}
