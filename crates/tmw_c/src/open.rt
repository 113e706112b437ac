//! Opening a watch into handles.
ghost use Rattle.std.specs.Prelude.{IfSome, IsTrue, IsFalse};
ghost use Rattle.tmw_c.specs.Open.{AreEmpty, AreHandlesOf, IsOpening};

use crate::c_settings::CSettings;
use crate::call_status::CallStatus;
use std::alloc::Global;
use tmw_events::Registers;
use tmw_handles::{HeldRecorder, HeldWatch, RecorderHandle, WatchHandle};
use tmw_ring::RingFault;
use tmw_watch::{Recorder, Watch};

/// Tells whether none of these handles holds anything.
fn are_empty(handles: &[RecorderHandle]) -> bool
    ensures yes { IsTrue result → AreEmpty handles.now }
    ensures no { IsFalse result → AreEmpty handles.now → ⊥ }
{
    for place in 0..handles.len() {
        if handles[place].is_full() {
            return false;
        }
    }
    true
}

/// Gives back all that these handles hold. Dropping a full handle leaks its recorder.
fn discard(alloc: Global, handles: Vec<RecorderHandle>) {
    for handle in handles {
        let mut handle = handle;
        drop(handle.take(alloc));
    }
}

/// Makes a handle for each recorder, in their order, or returns `None` after a failed allocation.
fn handles_of(
    alloc: Global,
    registers: Registers,
    recorders: Vec<Recorder>,
) -> Option<Vec<RecorderHandle>>
    ensures { IfSome result (λ handles. AreHandlesOf registers recorders.items handles.items) }
{
    let Ok(mut handles) = Vec::with_capacity(alloc, recorders.len()) else {
        return None;
    };
    for recorder in recorders {
        let held = HeldRecorder {
            recorder,
            registers,
        };
        let Ok(held) = Box::new(alloc, held) else {
            discard(alloc, handles);
            return None;
        };
        handles.push_reserved(RecorderHandle::of(held));
    }
    Some(handles)
}

/// Opens a watch of what is wanted, with a recorder for each handle.
pub fn open(
    alloc: Global,
    watch: &mut WatchHandle,
    recorders: &mut [RecorderHandle],
    wanted: &CSettings,
) -> CallStatus
    ensures { IsOpening wanted.now watch.old watch.new recorders.old recorders.new result }
{
    if watch.is_full() || !are_empty(recorders) {
        return CallStatus::FullHandle;
    }
    let settings = match wanted.settings(recorders.len() as u64) {
        Ok(settings) => settings,
        Err(status) => return status,
    };
    let (opened, ends) = match Watch::open(alloc, settings) {
        Ok(opened) => opened,
        Err(RingFault::BadSize) => return CallStatus::BadSize,
        Err(RingFault::BadLimit) => return CallStatus::BadLimit,
        Err(RingFault::Memory) => return CallStatus::Memory,
    };
    let Ok(held) = Box::new(alloc, HeldWatch::Open(opened)) else {
        return CallStatus::Memory;
    };
    let Some(mut handles) = handles_of(alloc, settings.registers, ends) else {
        return CallStatus::Memory;
    };
    recorders.swap_with_slice(&mut handles);
    *watch = WatchHandle::of(held);
    CallStatus::Done
}
