//! Closing a watch with its recorders, by their handles.
ghost use Rattle.tmw_c.specs.Shared.{Open, recorder_in, watch_in};
ghost use Rattle.std.specs.Prelude.{◌≡◌, ◌≤◌, [], All, Some, IsSome, length, IfOk, IfErr, IsTrue, IsFalse, vec_capacity};
ghost use Rattle.tmw_c.specs.Close.{AreHeld, AreInPlace, AreOfWatch, IsClosing, IsUnended, WasClosed};
ghost use Rattle.tmw_c.specs.Open.{AreEmpty};

use crate::c_verdict::CVerdict;
use crate::call_status::CallStatus;
use std::alloc::{AllocError, Global};
use std::mem;
use tmw_handles::{HeldRecorder, HeldWatch, RecorderHandle, WatchHandle};
use tmw_ring::Writer;
use tmw_watch::{Recorder, Watch, WatchReport};

/// Tells whether these are so many, and each holds the recorder of the number that is its place.
fn are_in_place(handles: &[RecorderHandle], count: u64) -> bool
    ensures yes { IsTrue result → AreInPlace count handles.now }
    ensures no { IsFalse result → AreInPlace count handles.now → ⊥ }
{
    if handles.len() as u64 != count {
        return false;
    }
    for place in 0..handles.len() {
        let Some(number) = handles[place].number() else {
            return false;
        };
        if usize::from(number) != place {
            return false;
        }
    }
    true
}

/// Makes so many handles that hold nothing.
fn empty_handles(alloc: Global, count: usize) -> Result<Vec<RecorderHandle>, AllocError>
    ensures count { IfOk result (λ handles. length handles.items ≡ count) }
    ensures empty { IfOk result (λ handles. AreEmpty handles.items) }
{
    let mut handles = Vec::with_capacity(alloc, count)?;
    for _ in 0..count {
        handles.push(RecorderHandle::empty(alloc))?;
    }
    Ok(handles)
}

/// Makes room for what so many recorders' handles hold, and for their writers, and as many handles that hold nothing.
fn room(
    alloc: Global,
    count: usize,
) -> Result<(Vec<RecorderHandle>, Vec<Recorder>, Vec<Writer>), AllocError>
    ensures count { IfOk result (λ room. length room.0.items ≡ count) }
    ensures empty { IfOk result (λ room. AreEmpty room.0.items × (room.1.items ≡ [])
        × (room.2.items ≡ [])) }
    ensures room { IfOk result (λ room. (vec_capacity room.1 ≡ count)
        × (vec_capacity room.2 ≡ count)) }
{
    let handles = empty_handles(alloc, count)?;
    let recorders = Vec::with_capacity(alloc, count)?;
    let writers = Vec::with_capacity(alloc, count)?;
    Ok((handles, recorders, writers))
}

/// Takes the recorders out of these handles.
fn recorders_of(handles: Vec<RecorderHandle>, room: Vec<Recorder>) -> Vec<Recorder>
    requires full { All (λ handle. IsSome (recorder_in handle)) handles.items }
    requires empty { room.items ≡ [] }
    requires room { length handles.items ≤ vec_capacity room }
    ensures { AreHeld result.items handles.items }
{
    let mut recorders = room;
    for handle in handles {
        let HeldRecorder { recorder, .. } = Box::into_inner(handle.into_held());
        recorders.push_reserved(recorder);
    }
    recorders
}

/// Closes an open watch with the recorders of these handles, and returns the report of its whole log; or what is to
/// be held in its place, and why.
fn close_open(
    alloc: Global,
    watch: Watch,
    handles: &mut [RecorderHandle],
) -> Result<WatchReport, (HeldWatch, CallStatus)>
    requires { AreOfWatch (Some (Open watch)) handles.old }
    ensures ok { IfOk result (WasClosed (Open watch) handles.old handles.new) }
    ensures err { IfErr result (λ back. IsUnended (Open watch) back.0 handles.old handles.new
        back.1) }
{
    if !are_in_place(handles, watch.recorders()) {
        return Err((HeldWatch::Open(watch), CallStatus::Missing));
    }
    // Before anything is given up, so that a failed allocation leaves each handle as it was.
    let Ok((mut taken, recorders, writers)) = room(alloc, handles.len()) else {
        return Err((HeldWatch::Open(watch), CallStatus::Memory));
    };
    handles.swap_with_slice(&mut taken);
    match watch.end(recorders_of(taken, recorders), writers) {
        Ok(whole) => Ok(whole),
        Err((watch, writers)) => Err((HeldWatch::Shared(watch, writers), CallStatus::Closing)),
    }
}

/// Closes what is held, if it is an open watch, and returns what `close_open` does.
fn end(
    alloc: Global,
    held: HeldWatch,
    handles: &mut [RecorderHandle],
) -> Result<WatchReport, (HeldWatch, CallStatus)>
    requires { AreOfWatch (Some held) handles.old }
    ensures ok { IfOk result (WasClosed held handles.old handles.new) }
    ensures err { IfErr result (λ back. IsUnended held back.0 handles.old handles.new back.1) }
{
    match held {
        HeldWatch::Open(watch) => close_open(alloc, watch, handles),
        HeldWatch::Shared(watch, writers) => {
            Err((HeldWatch::Shared(watch, writers), CallStatus::Closing))
        }
        HeldWatch::Closed => Err((HeldWatch::Closed, CallStatus::Closing)),
    }
}

/// Closes what the watch's handle holds, and leaves the handle empty. If it can't, the handle holds what there is to
/// be closed.
pub fn close(
    alloc: Global,
    watch: &mut WatchHandle,
    recorders: &mut [RecorderHandle],
    told: &mut CVerdict,
) -> CallStatus
    requires { AreOfWatch (watch_in watch.old) recorders.old }
    ensures { IsClosing (watch_in watch.old) (watch_in watch.new) recorders.old recorders.new
        told.old told.new result }
{
    let Some(mut place) = watch.take(alloc) else {
        return CallStatus::NoHandle;
    };
    let held = mem::replace(&mut *place, HeldWatch::Closed);
    match end(alloc, held, recorders) {
        Ok(report) => {
            *told = CVerdict::of(report);
            CallStatus::Done
        }
        Err((left, status)) => {
            *place = left;
            *watch = WatchHandle::of(place);
            status
        }
    }
}
