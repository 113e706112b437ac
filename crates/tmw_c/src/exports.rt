//! What a C program calls. Each function's number says how it was answered.
ghost use Rattle.tmw_c.specs.Shared.{recorder_in, watch_in};
ghost use Rattle.std.specs.Prelude.{◌≡◌, None};
ghost use Rattle.tmw_c.specs.Close.{AreOfWatch, IsClosing};
ghost use Rattle.tmw_c.specs.Judge.{IsPumping, IsReporting};
ghost use Rattle.tmw_c.specs.Open.{IsOpening};
ghost use Rattle.tmw_c.specs.Record.{IsRecording};
ghost use Rattle.tmw_c.specs.RecordRoom.{IsAsking};
ghost use Rattle.tmw_c.specs.Statuses.{Tells};
ghost use Rattle.tmw_c.specs.Summary.{IsSumming};

use crate::c_counts::CCounts;
use crate::c_settings::CSettings;
use crate::c_verdict::CVerdict;
use crate::{close, judge, open, record, record_room};
use std::alloc::Global;
use tmw_handles::{RecorderHandle, WatchHandle};

/// Opens a watch of what is wanted, with a recorder for each handle.
#[unsafe(no_mangle)]
pub extern "C" fn tmwatch_open(
    alloc: Global,
    watch: &mut WatchHandle,
    recorders: &mut [RecorderHandle],
    wanted: &CSettings,
) -> u32
    ensures { Tells result (IsOpening wanted.now watch.old watch.new recorders.old recorders.new) }
{
    open::open(alloc, watch, recorders, wanted).number()
}

/// Closes a watch with all its recorders, each in the handle at the place of its number, and tells the verdict on all
/// that was recorded.
#[unsafe(no_mangle)]
pub extern "C" fn tmwatch_close(
    alloc: Global,
    watch: &mut WatchHandle,
    recorders: &mut [RecorderHandle],
    told: &mut CVerdict,
) -> u32
    requires { AreOfWatch (watch_in watch.old) recorders.old }
    ensures { Tells result (IsClosing (watch_in watch.old) (watch_in watch.new) recorders.old
        recorders.new told.old told.new) }
{
    close::close(alloc, watch, recorders, told).number()
}

/// Records the event of this letter.
#[unsafe(no_mangle)]
pub extern "C" fn tmwatch_record(
    recorder: &mut RecorderHandle,
    letter: u32,
    register: u64,
    value: u64,
    place: &mut u64,
) -> u32
    ensures { Tells result (IsRecording letter register value (recorder_in recorder.old)
        (recorder_in recorder.new) place.old place.new) }
{
    record::record(recorder, letter, register, value, place).number()
}

/// Tells whether so many records find room.
#[unsafe(no_mangle)]
pub extern "C" fn tmwatch_room(recorder: &mut RecorderHandle, records: u64) -> u32
    ensures { Tells result (IsAsking records (recorder_in recorder.old)
        (recorder_in recorder.new)) }
{
    record_room::ask(recorder, records).number()
}

/// Judges up to `most` events.
#[unsafe(no_mangle)]
pub extern "C" fn tmwatch_pump(
    alloc: Global,
    watch: &mut WatchHandle,
    most: u64,
    judged: &mut u64,
) -> u32
    ensures { Tells result (IsPumping most (watch_in watch.old) (watch_in watch.new) judged.old
        judged.new) }
{
    judge::pump(alloc, watch, most, judged).number()
}

/// Tells the verdict on what was judged so far.
#[unsafe(no_mangle)]
pub extern "C" fn tmwatch_report(alloc: Global, watch: &mut WatchHandle, out: &mut CVerdict) -> u32
    ensures { Tells result (IsReporting (watch_in watch.old) (watch_in watch.new) out.old out.new) }
{
    judge::report(alloc, watch, out).number()
}

/// Tells the counts of what was judged so far.
#[unsafe(no_mangle)]
pub extern "C" fn tmwatch_summary(alloc: Global, watch: &mut WatchHandle, out: &mut CCounts) -> u32
    ensures { Tells result (IsSumming (watch_in watch.old) (watch_in watch.new) out.old out.new) }
{
    judge::summary(alloc, watch, out).number()
}

/// Gives back all that the handle holds, and leaves it empty.
#[unsafe(no_mangle)]
pub extern "C" fn tmwatch_discard(alloc: Global, watch: &mut WatchHandle)
    ensures { watch_in watch.new ≡ None }
{
    drop(watch.take(alloc));
}

/// Gives back all that the handle holds, and leaves it empty.
#[unsafe(no_mangle)]
pub extern "C" fn tmwatch_discard_recorder(alloc: Global, recorder: &mut RecorderHandle)
    ensures { recorder_in recorder.new ≡ None }
{
    drop(recorder.take(alloc));
}
