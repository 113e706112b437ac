ghost use Rattle.tmw_bench.specs.Shared.{scripts_of};
ghost use Rattle.std.specs.Prelude.{◌≤◌, length, IfOk, IfErr};
ghost use Rattle.tmw_bench.specs.BenchHeadline.{IsBenched, IsHunted, IsNoBench};
ghost use Rattle.tmw_bench.specs.BenchKeep.{IsCarriedOut};

use crate::bench_keep::BenchKeep;
use crate::bench_result::BenchResult;
use crate::hunt_result::HuntResult;
use crate::hunt_window::Hunting;
use crate::play_rounds::{Left, play_rounds};
use crate::progress::Progress;
use std::alloc::Global;
use std::marker::Brand;
use std::sync::Wait;
use std::thread::Threads;
use tmw_events::Event;
use tmw_monitor::Monitor;
use tmw_options::Settings;
use tmw_pump::{Keep, Pump, Rest};
use tmw_ring::{RingFault, ring};
use tmw_tm::Tm;
use tmw_workers::{BenchFault, BenchStage, Ending, Orders, Outcome, Signals, ends_of};
use tmw_workloads::Workload;

/// Runs the workload's scripts on the memory, each in a thread of its own, and judges what they record, from registers
/// that are all 0. The memory should be new. The workload's order is not used.
///
/// Each thread records its calls and their answers in one ring, and the calling thread judges them as they come. The
/// workload runs round after round on the same memory. A round begins when all threads have ended the one before, and
/// only if the verdict is opaque so far and no thread was stopped.
///
/// Errors: `Registers` exactly if the memory has fewer registers than the workload; else `Ring` if there is no ring of
/// this size; `Memory` after a failed allocation; `Spawn` if a thread could not be started. All threads have ended
/// then.
///
/// It returns if each call of the memory does.
pub fn run_bench<R: Threads + Wait + Sync>(
    rt: &R,
    alloc: Global,
    memory: &(dyn Tm + Sync),
    workload: &Workload,
    settings: Settings,
) -> Result<BenchResult, BenchFault>
    ensures ok { IfOk result
        (IsBenched (gives memory.now) workload.now.registers (scripts_of workload.now.scripts.items)
        settings) }
    ensures enough { IfOk result (λ benched. workload.now.registers.number ≤ has memory.now) }
    ensures err { IfErr result
        (IsNoBench (has memory.now) workload.now.registers.number
        (length workload.now.scripts.items) settings) }
{
    let carried = carry_out::<R, Vec<Event>>(rt, alloc, memory, workload, settings, ())?;
    let summary = carried.rest.front().summary();
    let (log, verdict) = carried.rest.finish();
    Ok(BenchResult {
        summary,
        outcome: Outcome {
            log,
            verdict,
            ends: carried.ends,
        },
        rounds: carried.rounds,
    })
}

/// Runs and judges as `run_bench` does, and keeps only the events of the last window. So its memory does not grow with
/// the number of rounds. Each time `progress.every()` rounds have ended and another follows, it tells how far it has
/// come, and at last that it is over.
pub fn hunt<R: Threads + Wait + Sync, P: Progress>(
    rt: &R,
    alloc: Global,
    memory: &(dyn Tm + Sync),
    workload: &Workload,
    settings: Settings,
    progress: &P,
) -> Result<HuntResult, BenchFault>
    ensures ok { IfOk result
        (IsHunted (gives memory.now) workload.now.registers (scripts_of workload.now.scripts.items)
        settings) }
    ensures enough { IfOk result (λ hunted. workload.now.registers.number ≤ has memory.now) }
    ensures err { IfErr result
        (IsNoBench (has memory.now) workload.now.registers.number
        (length workload.now.scripts.items) settings) }
{
    let over = carry_out::<R, Hunting<'_, P>>(rt, alloc, memory, workload, settings, progress);
    progress.end();
    let carried = over?;
    let (front, kept) = carried.rest.into_kept();
    let Hunting { window, .. } = kept;
    Ok(HuntResult {
        // The log is never malformed.
        showing: window.finish(front.monitor()),
        summary: front.summary(),
        ends: carried.ends,
        rounds: carried.rounds,
    })
}

/// What a workload that is carried out has left: the ring's rest, which is judged whole.
#[derive(Drop)]
pub struct Carried<K: Keep> {
    pub rest: Rest<K>,
    pub ends: Vec<Ending>,
    pub rounds: u64,
}

/// Carries the scripts out, and judges all that is recorded.
fn carry_out<R: Threads + Wait + Sync, K: BenchKeep>(
    rt: &R,
    alloc: Global,
    memory: &(dyn Tm + Sync),
    workload: &Workload,
    settings: Settings,
    told: K::Told,
) -> Result<Carried<K>, BenchFault>
    ensures ok { IfOk result (IsCarriedOut (gives memory.now) workload.now.registers
        (scripts_of workload.now.scripts.items) settings) }
    ensures enough { IfOk result (λ carried. workload.now.registers.number ≤ has memory.now) }
    ensures err { IfErr result
        (IsNoBench (has memory.now) workload.now.registers.number
        (length workload.now.scripts.items) settings) }
{
    if memory.registers().get() < workload.registers.get() {
        return Err(BenchFault::Registers);
    }
    let threads = workload.scripts.len() as u64;
    let (ring, writers, reader) = match ring(alloc, settings.cells, threads, settings.limit) {
        Ok(made) => made,
        Err(RingFault::Memory) => return Err(BenchFault::Memory),
        Err(RingFault::BadSize) => return Err(BenchFault::Ring(RingFault::BadSize)),
        Err(RingFault::BadLimit) => return Err(BenchFault::Ring(RingFault::BadLimit)),
    };
    let Ok(monitor) = Monitor::new(alloc, workload.registers, settings.bounds) else {
        return Err(BenchFault::Memory);
    };
    let Ok(kept) = K::begin(alloc, &monitor, told) else {
        return Err(BenchFault::Memory);
    };
    let pump = Pump::keeping(kept, reader, monitor);
    let (signals, orders) = (Signals::new(), Orders::new());
    let stage = BenchStage {
        ring: &ring,
        scripts: workload.scripts.as_slice(),
        patience: settings.patience,
        rounds: settings.rounds,
        signals: &signals,
        orders: &orders,
    };
    let left = play_rounds::<R, Brand, K>(rt, alloc, memory, stage, pump, writers)?;
    let Left {
        pump,
        writers,
        stops,
        rounds,
    } = left;
    let mut rest = pump.settle(ring, writers);
    let Ok(_) = rest.pump(u64::MAX) else {
        return Err(BenchFault::Memory);
    };
    let Ok(ends) = ends_of(alloc, &stops) else {
        return Err(BenchFault::Memory);
    };
    Ok(Carried { rest, ends, rounds })
}
