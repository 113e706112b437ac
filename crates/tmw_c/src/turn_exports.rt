//! Functions by which a C program carries a transaction out: it makes each call itself, and tells the answer.
ghost use Rattle.tmw_c.specs.Shared.{recorder_in};
ghost use Rattle.tmw_c.specs.Statuses.{Tells};
ghost use Rattle.tmw_c.specs.TurnCalls.{IsAnswering, IsCalling};

use crate::c_turn::{CTurn, Call};
use crate::turn_calls;
use tmw_handles::RecorderHandle;

/// Records the next call of the transaction that makes these calls. Its place in the log is counted from 0.
#[unsafe(no_mangle)]
pub extern "C" fn tmwatch_record_next_call(
    recorder: &mut RecorderHandle,
    calls: &[Call],
    turn: &mut CTurn,
    place: &mut u64,
) -> u32
    ensures { Tells result (IsCalling calls.now (recorder_in recorder.old)
        (recorder_in recorder.new) turn.old turn.new place.old place.new) }
{
    turn_calls::next(recorder, calls, turn, place).number()
}

/// Records the answer that the memory gave to the call that waits for it, if it fits, and turns to the next call.
#[unsafe(no_mangle)]
pub extern "C" fn tmwatch_record_answer(
    recorder: &mut RecorderHandle,
    calls: &[Call],
    turn: &mut CTurn,
    letter: u32,
    value: u64,
    place: &mut u64,
) -> u32
    ensures { Tells result (IsAnswering calls.now letter value (recorder_in recorder.old)
        (recorder_in recorder.new) turn.old turn.new place.old place.new) }
{
    turn_calls::answered(recorder, calls, turn, letter, value, place).number()
}
