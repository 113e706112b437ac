//! The leader's ends of the lines to its workers.
ghost use Rattle.tmw_bench.specs.Shared.{ReaderOf, pump_in, reader_of};
ghost use Rattle.std.specs.Prelude.{◌≡◌, None, length, IfOk, OnOk, IsTrue, IsFalse, IsSome};
ghost use Rattle.tmw_bench.specs.Lead.{AllToldEnd, HasHeard, HaveHeardUpTo, HaveToldUpTo, SomeToldStop};
ghost use Rattle.tmw_bench.specs.BenchKeep.{HasGoneOn};

use crate::bench_keep::BenchKeep;
use std::alloc::AllocError;
use std::sync::Wait;
use tmw_pump::Pump;
use tmw_ring::Ring;
use tmw_workers::{Line, Orders, RoundEnd, tell, wait};

/// How many events are judged at once before the leader looks whether a worker has ended.
const TURN: u64 = 64;

/// Waits until a worker has told that its round has ended, and judges meanwhile what is recorded.
fn hear<R: Wait, K: BenchKeep>(
    rt: &R,
    ring: &Ring,
    pump: &mut Pump<K>,
    line: &mut Line,
    orders: &Orders,
) -> Result<RoundEnd, AllocError>
    requires reader { ReaderOf ring.now (reader_of (pump_in pump.old)) }
    ensures reader { OnOk result (ReaderOf ring.now (reader_of (pump_in pump.new))) }
    ensures goes_on { OnOk result (HasGoneOn pump.old pump.new) }
    ensures heard { IfOk result (λ ended. HasHeard ended line.old line.new) }
{
    let mut idle = 0u64;
    for _ in rt.forever() {
        let count = orders.ended.get();
        if let Ok(ended) = line.up.pop() {
            return Ok(ended);
        }
        let pumped = pump.pump(ring, TURN)?;
        idle = if pumped.judged > 0 {
            0
        } else {
            idle.saturating_add(1)
        };
        wait(rt, idle, &orders.ended, count);
    }
    unreachable!()
}

/// Whether the worker was stopped.
fn is_stopped(ended: &RoundEnd) -> bool
    ensures stopped { IsTrue result → IsSome ended.now.stop }
    ensures ended { IsFalse result → ended.now.stop ≡ None }
{
    ended.stop.is_some()
}

/// Waits until all workers have told that their round has ended. Returns the most places that one of them has found
/// claimed, and whether a worker was stopped.
pub fn hear_all<R: Wait, K: BenchKeep>(
    rt: &R,
    ring: &Ring,
    pump: &mut Pump<K>,
    lines: &mut [Line],
    orders: &Orders,
) -> Result<(u64, bool), AllocError>
    requires reader { ReaderOf ring.now (reader_of (pump_in pump.old)) }
    ensures reader { OnOk result (ReaderOf ring.now (reader_of (pump_in pump.new))) }
    ensures goes_on { OnOk result (HasGoneOn pump.old pump.new) }
    ensures heard { OnOk result (HaveHeardUpTo (length lines.old) lines.old lines.new) }
    ensures stopped { IfOk result
        (λ heard. IsTrue heard.1 → SomeToldStop (length lines.old) lines.new) }
    ensures ended { IfOk result
        (λ heard. IsFalse heard.1 → AllToldEnd (length lines.old) lines.new) }
{
    let mut most = 0;
    let mut stopped = false;
    for line in lines.iter_mut() {
        let ended = hear(rt, ring, pump, line, orders)?;
        if ended.tail > most {
            most = ended.tail;
        }
        if is_stopped(&ended) {
            stopped = true;
        }
    }
    Ok((most, stopped))
}

/// Tells all workers where the round has ended.
pub fn tell_all<R: Wait>(rt: &R, lines: &mut [Line], bound: u64)
    ensures { HaveToldUpTo bound (length lines.old) lines.old lines.new }
{
    for line in lines.iter_mut() {
        tell(rt, &mut line.down, bound);
    }
}
