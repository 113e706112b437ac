//! All rounds, by workers that live as long.
ghost use Rattle.tmw_bench.specs.Shared.{IsOfThreads, StaysKept, pump_front, pump_in, pump_kept, scripts_of};
ghost use Rattle.std.specs.Prelude.{IfOk, IfErr};
ghost use Rattle.tmw_bench.specs.PlayRounds.{CanPlay, HasPlayed};

use crate::bench_keep::BenchKeep;
use crate::lead::lead;
use std::alloc::Global;
use std::sync::Wait;
use std::thread;
use std::thread::{Scope, Threads};
use tmw_pump::{Keep, Pump};
use tmw_ring::{Refused, Writer};
use tmw_tm::Tm;
use tmw_workers::{BenchFault, BenchStage, MemoryAnswers, close_all, open_all, start_all};

/// What the last round has left: the pump, the writers, the refusals at which workers were stopped, and how many rounds were begun.
#[derive(Drop)]
pub struct Left<K: Keep> {
    pub pump: Pump<K>,
    pub writers: Vec<Writer>,
    pub stops: Vec<Option<Refused>>,
    pub rounds: u64,
}

/// Runs the scripts round after round, and returns what the last round has left. All rounds are begun, unless after one
/// of them the verdict is not opaque so far or a worker was stopped. All workers have ended, also if it fails.
pub fn play_rounds<R: Threads + Wait + Sync, J: MemoryAnswers + Send, K: BenchKeep>(
    rt: &R,
    alloc: Global,
    memory: &(dyn Tm + Sync),
    stage: BenchStage<'_>,
    pump: Pump<K>,
    writers: Vec<Writer>,
) -> Result<Left<K>, BenchFault>
    requires can { CanPlay (gives memory.now) J.gave stage.ring.now stage.scripts.now stage.rounds
        (pump_in pump) writers.items }
    ensures played { IfOk result (λ left. HasPlayed J.gave stage.entry.ring.now
        (scripts_of stage.entry.scripts.now) stage.entry.rounds left.rounds
        (pump_in pump) (pump_in left.pump) left.writers.items left.stops.items) }
    ensures kept { IfOk result
        (λ left. StaysKept K.keeps (pump_front (pump_in pump)) (pump_front (pump_in left.pump))
        (pump_kept pump) (pump_kept left.pump)) }
    ensures err { IfErr result IsOfThreads }
{
    thread::scope(
        thread::scope_env(),
        rt,
        move |scope| -> Result<Left<K>, BenchFault>
            requires can { CanPlay (gives memory.now) J.gave stage.ring.now stage.scripts.now stage.rounds
                (pump_in pump) writers.items }
            ensures played { IfOk result (λ left. HasPlayed J.gave stage.entry.ring.now
                (scripts_of stage.entry.scripts.now) stage.entry.rounds left.rounds
                (pump_in pump) (pump_in left.pump) left.writers.items left.stops.items) }
            ensures kept { IfOk result
                (λ left. StaysKept K.keeps (pump_front (pump_in pump)) (pump_front (pump_in left.pump))
                (pump_kept pump) (pump_kept left.pump)) }
            ensures err { IfErr result IsOfThreads }
        { play_within::<_, R, J, K>(rt, scope, alloc, memory, stage, pump, writers) },
    )
}

/// The rounds, by threads of this scope. Where it fails, each of them ends: one that waits, and one that finds the ring full.
fn play_within<'s, E, R: Threads + Wait + Sync, J: MemoryAnswers + Send + 's, K: BenchKeep>(
    rt: &'s R,
    scope: &Scope<'s, E>,
    alloc: Global,
    memory: &'s (dyn Tm + Sync),
    stage: BenchStage<'s>,
    mut pump: Pump<K>,
    writers: Vec<Writer>,
) -> Result<Left<K>, BenchFault>
    requires can { CanPlay (gives memory.now) J.gave stage.ring.now stage.scripts.now stage.rounds
        (pump_in pump) writers.items }
    ensures played { IfOk result (λ left. HasPlayed J.gave stage.entry.ring.now
        (scripts_of stage.entry.scripts.now) stage.entry.rounds left.rounds
        (pump_in pump) (pump_in left.pump) left.writers.items left.stops.items) }
    ensures kept { IfOk result
        (λ left. StaysKept K.keeps (pump_front (pump_in pump)) (pump_front (pump_in left.pump))
        (pump_kept pump) (pump_kept left.pump)) }
    ensures err { IfErr result IsOfThreads }
{
    let Ok((workers, mut lines)) = open_all(alloc, writers) else {
        return Err(BenchFault::Memory);
    };
    let handles = match start_all::<E, R, J>(rt, scope, alloc, memory, stage, workers) {
        Ok(handles) => handles,
        Err(fault) => {
            give_up(stage);
            return Err(fault);
        }
    };
    let led = lead(
        rt,
        stage.ring,
        &mut pump,
        lines.as_mut_slice(),
        stage.rounds,
        stage.orders,
    );
    let Ok(rounds) = led else {
        give_up(stage);
        return Err(BenchFault::Memory);
    };
    stage.orders.end();
    let Ok(back) = thread::join_promised(rt, handles) else {
        return Err(BenchFault::Memory);
    };
    let Ok((writers, stops)) = close_all(alloc, back, lines) else {
        return Err(BenchFault::Memory);
    };
    Ok(Left {
        pump,
        writers,
        stops,
        rounds,
    })
}

/// Nobody leads or pumps any more: a worker that waits or finds the ring full ends.
fn give_up(stage: BenchStage<'_>) {
    stage.signals.give_up();
    stage.orders.end();
}
