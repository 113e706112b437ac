//! Asking for room for several records by a handle.
ghost use Rattle.tmw_c.specs.Shared.{recorder_in};
ghost use Rattle.tmw_c.specs.Record.{IsSameEnd};
ghost use Rattle.tmw_c.specs.RecordRoom.{Finds, IsAsking};

use crate::call_status::CallStatus;
use tmw_handles::{HeldRecorder, RecorderHandle};
use tmw_ring::Refused;

/// Tells whether so many records find room.
fn ask_held(held: &mut HeldRecorder, records: u64) -> CallStatus
    ensures same { IsSameEnd held.old held.new }
    ensures found { Finds records held.old held.new result }
{
    match held.recorder.room(records) {
        Ok(()) => CallStatus::Done,
        Err(Refused::Full { .. }) => CallStatus::Full,
        Err(Refused::Spent { .. }) => CallStatus::Spent,
    }
}

/// Tells whether so many records find room by what the handle holds.
pub fn ask(recorder: &mut RecorderHandle, records: u64) -> CallStatus
    ensures { IsAsking records (recorder_in recorder.old) (recorder_in recorder.new) result }
{
    if !recorder.is_full() {
        return CallStatus::NoHandle;
    }
    ask_held(recorder.slot.held_mut(), records)
}
