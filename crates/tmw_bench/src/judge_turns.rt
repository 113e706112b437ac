//! Judging a ring up to a length of its log.
ghost use Rattle.tmw_bench.specs.Shared.{ReaderOf, judged_of, pump_front, pump_in, reader_of};
ghost use Rattle.std.specs.Prelude.{◌≡◌, ◌+◌, ◌≤◌, length, IfOk, OnOk};
ghost use Rattle.tmw_bench.specs.BenchKeep.{HasGoneOn};

use crate::bench_keep::BenchKeep;
use std::alloc::AllocError;
use std::sync::Wait;
use tmw_pump::Pump;
use tmw_ring::Ring;
use tmw_workers::pause;

/// The most events that one call of the pump judges.
const TURN: u64 = 64;

/// Judges events of the ring, none behind so many in all, and answers how many it has judged.
fn judge_turn<K: BenchKeep>(ring: &Ring, pump: &mut Pump<K>, count: u64) -> Result<u64, AllocError>
    requires { ReaderOf ring.now (reader_of (pump_in pump.old)) }
    ensures of_ring { ReaderOf ring.now (reader_of (pump_in pump.new)) }
    ensures goes_on { OnOk result (HasGoneOn pump.old pump.new) }
    ensures judged { IfOk result (λ judged. length (judged_of (pump_front (pump_in pump.new)))
        ≡ length (judged_of (pump_front (pump_in pump.old))) + judged) }
    ensures bound { OnOk result (length (judged_of (pump_front (pump_in pump.old))) ≤ count
        → length (judged_of (pump_front (pump_in pump.new))) ≤ count) }
{
    let left = count.saturating_sub(pump.front().fed());
    Ok(pump.pump(ring, TURN.min(left))?.judged)
}

/// Judges the events of the ring until `count` are judged in all. It waits for those that are not published yet:
/// forever if no more come, or if more are judged already.
pub fn judge_up_to<R: Wait, K: BenchKeep>(
    rt: &R,
    ring: &Ring,
    pump: &mut Pump<K>,
    count: u64,
) -> Result<(), AllocError>
    requires { ReaderOf ring.now (reader_of (pump_in pump.old)) }
    ensures of_ring { OnOk result (ReaderOf ring.now (reader_of (pump_in pump.new))) }
    ensures goes_on { OnOk result (HasGoneOn pump.old pump.new) }
    ensures judged { OnOk result (length (judged_of (pump_front (pump_in pump.new))) ≡ count) }
{
    let mut idle = 0u64;
    for _ in rt.forever() {
        if pump.front().fed() == count {
            break;
        }
        let judged = judge_turn(ring, pump, count)?;
        idle = if judged > 0 {
            0
        } else {
            idle.saturating_add(1)
        };
        pause(idle);
    }
    Ok(())
}
