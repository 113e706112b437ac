ghost use Rattle.tmw_show.specs.Shared.{Memory, Remarks, fault_line};
ghost use Rattle.std.specs.Prelude.{◌≡◌, ◌⊎◌};
ghost use Rattle.tmw_report.specs.SendText.{IsPut};
ghost use Rattle.tmw_show.specs.RunShow.{remark_by, remark_of, shown_status, shown_text};

use crate::form_text::shown_text;
use crate::shown_trace::ShownTrace;
use std::alloc::Global;
use tmw_defs::{Criterion, Verdict};
use tmw_options::Form;
use tmw_report::{FAULT_STATUS, Fault, Remark, answer_fault, send_remark, status_of};
use tmw_streams::{Sink, put_all};
use tmw_window::ShownWindow;

/// Writes what is shown in this form, of a trace before which so many events of the run come, and returns the exit
/// status. The text is made before any of it goes out: after a failed allocation for it, that fault's line is written
/// instead. A remark on the run goes to the sink for errors.
pub fn answer_shown<K: Sink, E: Sink>(
    alloc: Global,
    sink: &mut K,
    errors: &mut E,
    criterion: Criterion,
    before: u64,
    form: Form,
    shown: &ShownTrace,
) -> u8
    ensures { (IsPut K.to sink.old sink.new (shown_text criterion before form shown.now)
        (shown_status shown.now) result
        × Remarks E.to (remark_of shown.now) errors.old errors.new)
        ⊎ (IsPut K.to sink.old sink.new (fault_line Memory) 4 result
        × (errors.new ≡ errors.old)) }
{
    let Ok(text) = shown_text(alloc, criterion, before, form, shown) else {
        return answer_fault(sink, Fault::Memory);
    };
    send_remark(errors, remark_of(&shown.showing));
    match put_all(sink, &text) {
        Ok(()) => status_of(&shown.showing.verdict),
        Err(_) => FAULT_STATUS,
    }
}

/// Returns the remark on the run: which event after the one that the verdict names fits no run, or else that it is undecided.
fn remark_of(showing: &ShownWindow) -> Option<Remark>
    ensures { result ≡ remark_by showing.now.broken showing.now.verdict }
{
    match (showing.broken, showing.verdict) {
        (Some(_), Verdict::Malformed(_)) => None,
        (Some(broken), _) => Some(Remark::Broken(broken.at)),
        (None, Verdict::Undecided(_, why)) => Some(Remark::Undecided(why)),
        (None, _) => None,
    }
}
