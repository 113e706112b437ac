//! A function for each kind of event. It records as the function that takes a letter does, and tells no place.
#![tactic(auto, using(crate::proofs::StatusNumbers::tells))]

ghost use Rattle.tmw_c.specs.Shared.{recorder_in};
ghost use Rattle.tmw_c.specs.Record.{IsRecordingUntold};
ghost use Rattle.tmw_c.specs.Statuses.{Tells};

// Bodies name letters by these; clauses have their numbers, which nothing in the program can change.
use crate::event_letters::{A, C, K, N, R, T, V, W, X};
use crate::record::record_untold;
use tmw_handles::RecorderHandle;

/// Records the call of a read of this register.
#[unsafe(no_mangle)]
pub extern "C" fn tmwatch_read(recorder: &mut RecorderHandle, register: u64) -> u32
    ensures { Tells result (IsRecordingUntold 82 register 0 (recorder_in recorder.old)
        (recorder_in recorder.new)) }
{
    record_untold(recorder, R, register, 0).number()
}

/// Records the answer of a read or an add: the value that the register had.
#[unsafe(no_mangle)]
pub extern "C" fn tmwatch_value(recorder: &mut RecorderHandle, value: u64) -> u32
    ensures { Tells result (IsRecordingUntold 86 0 value (recorder_in recorder.old)
        (recorder_in recorder.new)) }
{
    record_untold(recorder, V, 0, value).number()
}

/// Records the call of a write of this value to this register.
#[unsafe(no_mangle)]
pub extern "C" fn tmwatch_write(recorder: &mut RecorderHandle, register: u64, value: u64) -> u32
    ensures { Tells result (IsRecordingUntold 87 register value (recorder_in recorder.old)
        (recorder_in recorder.new)) }
{
    record_untold(recorder, W, register, value).number()
}

/// Records the answer of a write.
#[unsafe(no_mangle)]
pub extern "C" fn tmwatch_written(recorder: &mut RecorderHandle) -> u32
    ensures { Tells result (IsRecordingUntold 75 0 0 (recorder_in recorder.old)
        (recorder_in recorder.new)) }
{
    record_untold(recorder, K, 0, 0).number()
}

/// Records the call that adds this value to this register.
#[unsafe(no_mangle)]
pub extern "C" fn tmwatch_add(recorder: &mut RecorderHandle, register: u64, value: u64) -> u32
    ensures { Tells result (IsRecordingUntold 78 register value (recorder_in recorder.old)
        (recorder_in recorder.new)) }
{
    record_untold(recorder, N, register, value).number()
}

/// Records the call to commit.
#[unsafe(no_mangle)]
pub extern "C" fn tmwatch_commit(recorder: &mut RecorderHandle) -> u32
    ensures { Tells result (IsRecordingUntold 84 0 0 (recorder_in recorder.old)
        (recorder_in recorder.new)) }
{
    record_untold(recorder, T, 0, 0).number()
}

/// Records that the transaction has committed.
#[unsafe(no_mangle)]
pub extern "C" fn tmwatch_committed(recorder: &mut RecorderHandle) -> u32
    ensures { Tells result (IsRecordingUntold 67 0 0 (recorder_in recorder.old)
        (recorder_in recorder.new)) }
{
    record_untold(recorder, C, 0, 0).number()
}

/// Records the call to abort.
#[unsafe(no_mangle)]
pub extern "C" fn tmwatch_abort(recorder: &mut RecorderHandle) -> u32
    ensures { Tells result (IsRecordingUntold 88 0 0 (recorder_in recorder.old)
        (recorder_in recorder.new)) }
{
    record_untold(recorder, X, 0, 0).number()
}

/// Records that the transaction has aborted.
#[unsafe(no_mangle)]
pub extern "C" fn tmwatch_aborted(recorder: &mut RecorderHandle) -> u32
    ensures { Tells result (IsRecordingUntold 65 0 0 (recorder_in recorder.old)
        (recorder_in recorder.new)) }
{
    record_untold(recorder, A, 0, 0).number()
}
