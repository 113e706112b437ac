//! The leader, which judges what the workers record, and tells them where each round has ended.
ghost use Rattle.tmw_bench.specs.Shared.{Fits, OpaqueSoFar, ReaderOf, Rules, judged_of, monitor_of, pump_front, pump_in, reader_of, verdict_on};
ghost use Rattle.std.specs.Prelude.{◌≡◌, ◌≢◌, ◌≤◌, ◌<◌, ◌⊎◌, [], length, IfOk, OnOk};
ghost use Rattle.tmw_bench.specs.BenchKeep.{HasGoneOn};
ghost use Rattle.tmw_bench.specs.Lead.{AreNewLines, HasLed, SomeToldStop};

use crate::bench_keep::BenchKeep;
use crate::hear_all::{hear_all, tell_all};
use crate::judge_turns::judge_up_to;
use std::alloc::AllocError;
use std::sync::Wait;
use tmw_defs::Verdict;
use tmw_pump::Pump;
use tmw_ring::Ring;
use tmw_workers::{Line, Orders};

/// Leads the workers through round after round, and returns how many were begun: all, unless after one of them the
/// verdict is not opaque so far or a worker was stopped.
pub fn lead<R: Wait, K: BenchKeep>(
    rt: &R,
    ring: &Ring,
    pump: &mut Pump<K>,
    lines: &mut [Line],
    rounds: u64,
    orders: &Orders,
) -> Result<u64, AllocError>
    requires reader { ReaderOf ring.now (reader_of (pump_in pump.old)) }
    requires new { AreNewLines lines.old }
    requires judged { judged_of (pump_front (pump_in pump.old)) ≡ [] }
    requires some { 1 ≤ rounds }
    ensures reader { OnOk result (ReaderOf ring.now (reader_of (pump_in pump.new))) }
    ensures goes_on { OnOk result (HasGoneOn pump.old pump.new) }
    ensures led { IfOk result
        (λ count. (rules : Rules) → Fits rules [] (monitor_of (pump_front (pump_in pump.old)))
        → HasLed rules count (pump_front (pump_in pump.new)) lines.old lines.new) }
    ensures within { IfOk result (λ count. count ≤ rounds) }
    ensures over { IfOk result (λ count. count < rounds
        → SomeToldStop (length lines.old) lines.new
        ⊎ (verdict_on (pump_front (pump_in pump.new)) ≢ OpaqueSoFar)) }
{
    for round in 1..rounds {
        let (tail, stopped) = hear_all(rt, ring, pump, lines, orders)?;
        if stopped {
            return Ok(round);
        }
        judge_up_to(rt, ring, pump, tail)?;
        let Verdict::OpaqueSoFar = pump.verdict() else {
            return Ok(round);
        };
        let front = pump.front();
        let unasked = front.summary().counts.unasked;
        pump.kept().tell(round, front.fed(), unasked);
        tell_all(rt, lines, tail);
        orders.told.rise(1);
    }
    hear_all(rt, ring, pump, lines, orders)?;
    Ok(rounds)
}
