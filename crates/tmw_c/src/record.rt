//! Recording by a handle.
ghost use Rattle.tmw_c.specs.Shared.{recorder_in};
ghost use Rattle.std.specs.Prelude.{IfOk, IfErr};
ghost use Rattle.tmw_c.specs.Record.{HasRecordedAsked, HasRefused, IsRecording, IsRecordingUntold, IsSameEnd};

use crate::call_status::CallStatus;
use crate::event_letters::asked;
use tmw_handles::{HeldRecorder, RecorderHandle};
use tmw_ring::Refused;

/// Records the event that is asked for, and returns its place, or why not.
#[inline(always)]
fn record_held(
    held: &mut HeldRecorder,
    letter: u32,
    register: u64,
    value: u64,
) -> Result<u64, CallStatus>
    ensures same { IsSameEnd held.old held.new }
    ensures ok { IfOk result (λ place. HasRecordedAsked letter register value held.old place
        held.new) }
    ensures err { IfErr result (HasRefused letter register value held.old held.new) }
{
    let kind = match asked(held.registers, letter, register, value) {
        Ok(kind) => kind,
        Err(status) => return Err(status),
    };
    match held.recorder.record(kind) {
        Ok(place) => Ok(place),
        Err(Refused::Full { .. }) => Err(CallStatus::Full),
        Err(Refused::Spent { .. }) => Err(CallStatus::Spent),
    }
}

/// Records an event by what the handle holds. `place` changes only if the event was recorded.
#[inline(always)]
pub fn record(
    recorder: &mut RecorderHandle,
    letter: u32,
    register: u64,
    value: u64,
    place: &mut u64,
) -> CallStatus
    ensures { IsRecording letter register value (recorder_in recorder.old)
        (recorder_in recorder.new) place.old place.new result }
{
    if !recorder.is_full() {
        return CallStatus::NoHandle;
    }
    match record_held(recorder.slot.held_mut(), letter, register, value) {
        Ok(at) => {
            *place = at;
            CallStatus::Done
        }
        Err(status) => status,
    }
}

/// Records an event by what the handle holds. The place is not told.
#[inline(always)]
pub fn record_untold(
    recorder: &mut RecorderHandle,
    letter: u32,
    register: u64,
    value: u64,
) -> CallStatus
    ensures { IsRecordingUntold letter register value (recorder_in recorder.old)
        (recorder_in recorder.new) result }
{
    let mut place = 0;
    record(recorder, letter, register, value, &mut place)
}
