//! Carrying a transaction out by a handle, an event at a time.
ghost use Rattle.tmw_c.specs.Shared.{recorder_in};
ghost use Rattle.std.specs.Prelude.{◌≡◌, ◌<◌, IfOk, IfErr};
ghost use Rattle.tmw_c.specs.Record.{IsSameEnd};
ghost use Rattle.tmw_c.specs.TurnCalls.{GoesOnBy, HasAnswered, HasCalled, HasNotAnswered, HasNotCalled, IsAnswering, IsCalling};

use crate::c_turn::{CTurn, Call};
use crate::call_status::CallStatus;
use crate::event_letters::asked;
use tmw_events::Kind;
use tmw_handles::{HeldRecorder, RecorderHandle};
use tmw_ring::Refused;
use tmw_runs::{fits, is_abort, is_placed};

/// An event that was recorded, and its place in the one log of all threads.
#[derive(Clone, Copy)]
struct Recorded {
    kind: Kind,
    place: u64,
}

/// Records the call if a transaction of so many calls may have it at this turn, or returns why not.
fn call_held(
    held: &mut HeldRecorder,
    count: usize,
    turn: CTurn,
    call: Call,
) -> Result<Recorded, CallStatus>
    requires { turn.place < count }
    ensures same { IsSameEnd held.old held.new }
    ensures ok { IfOk result (λ told. HasCalled count turn call told held.old held.new) }
    ensures err { IfErr result (HasNotCalled count turn call held.old held.new) }
{
    let kind = match asked(held.registers, call.letter, call.register, call.value) {
        Ok(kind) => kind,
        Err(status) => return Err(status),
    };
    let may_stand = is_placed(kind, turn.place, count);
    if !may_stand {
        return Err(CallStatus::NotCall);
    }
    match held.recorder.record(kind) {
        Ok(place) => Ok(Recorded { kind, place }),
        Err(Refused::Full { .. }) => Err(CallStatus::Full),
        Err(Refused::Spent { .. }) => Err(CallStatus::Spent),
    }
}

/// Records the call that is due by what the handle holds. `place` and the turn change only if the call was recorded.
pub fn next(
    recorder: &mut RecorderHandle,
    calls: &[Call],
    turn: &mut CTurn,
    place: &mut u64,
) -> CallStatus
    ensures { IsCalling calls.now (recorder_in recorder.old) (recorder_in recorder.new) turn.old
        turn.new place.old place.new result }
{
    if turn.phase != 0 || turn.place >= calls.len() {
        return CallStatus::OutOfTurn;
    }
    let call = calls[turn.place];
    if !recorder.is_full() {
        return CallStatus::NoHandle;
    }
    match call_held(recorder.slot.held_mut(), calls.len(), *turn, call) {
        Ok(told) => {
            *place = told.place;
            turn.phase = 1;
            CallStatus::Done
        }
        Err(status) => status,
    }
}

/// Records the answer to the call, if it fits, and returns what was recorded, or why not.
fn answer_held(
    held: &mut HeldRecorder,
    call: Call,
    letter: u32,
    value: u64,
) -> Result<Recorded, CallStatus>
    ensures same { IsSameEnd held.old held.new }
    ensures ok { IfOk result (λ told. HasAnswered call letter value told held.old held.new) }
    ensures err { IfErr result (HasNotAnswered call letter value held.old held.new) }
{
    let kind = match asked(held.registers, call.letter, call.register, call.value) {
        Ok(kind) => kind,
        Err(status) => return Err(status),
    };
    let answer = match asked(held.registers, letter, 0, value) {
        Ok(answer) => answer,
        Err(status) => return Err(status),
    };
    let is_fit = fits(kind, answer);
    if !is_fit {
        return Err(CallStatus::Misfit);
    }
    match held.recorder.record(answer) {
        Ok(place) => Ok(Recorded {
            kind: answer,
            place,
        }),
        Err(Refused::Full { .. }) => Err(CallStatus::Full),
        Err(Refused::Spent { .. }) => Err(CallStatus::Spent),
    }
}

/// Returns the turn after this answer to the call that waits for it, in a transaction of so many calls.
fn after(count: usize, turn: CTurn, answer: Kind) -> CTurn
    requires waits { turn.phase ≡ 1 }
    requires low { turn.place < count }
    ensures { GoesOnBy count answer turn result }
{
    let place = turn.place;
    if is_abort(answer) {
        return CTurn { place, phase: 2 };
    }
    if place + 1 == count {
        return CTurn { place, phase: 2 };
    }
    CTurn {
        place: place + 1,
        phase: 0,
    }
}

/// Records the answer to the call that waits, by what the handle holds. `place` and the turn change only if it was
/// recorded.
pub fn answered(
    recorder: &mut RecorderHandle,
    calls: &[Call],
    turn: &mut CTurn,
    letter: u32,
    value: u64,
    place: &mut u64,
) -> CallStatus
    ensures { IsAnswering calls.now letter value (recorder_in recorder.old)
        (recorder_in recorder.new) turn.old turn.new place.old place.new result }
{
    if turn.phase != 1 || turn.place >= calls.len() {
        return CallStatus::OutOfTurn;
    }
    let call = calls[turn.place];
    if !recorder.is_full() {
        return CallStatus::NoHandle;
    }
    match answer_held(recorder.slot.held_mut(), call, letter, value) {
        Ok(told) => {
            *place = told.place;
            *turn = after(calls.len(), *turn, told.kind);
            CallStatus::Done
        }
        Err(status) => status,
    }
}
