//! A thread for each worker, which gives the worker back.
ghost use Rattle.tmw_workers.specs.Shared.{are_transactions, scripts_of};
ghost use Rattle.tmw_workers.specs.Player.{calls_of};
ghost use Rattle.std.specs.Prelude.{◌≡◌, ◌<◌, ℕ, length, get_or, IfOk, IfErr, IsTrue};
ghost use Rattle.tmw_workers.specs.WorkerConditions.{AreTransactions, GivesWithin, IsOfThreads};
ghost use Rattle.tmw_workers.specs.LeaderLines.{AreNewWorkers, IsNewWorker, IsPromised, promised_ring, promised_script, promised_worker};
ghost use Rattle.tmw_workers.specs.Worker.{HasPlayedOn};

use crate::bench_stage::BenchStage;
use crate::fault::BenchFault;
use crate::memory_answers::MemoryAnswers;
use crate::worker::{Worker, play_on};
use std::alloc::Global;
use std::marker::PhantomData;
use std::snapshot::Snapshot;
use std::sync::Wait;
use std::thread::{Promise, PromisedHandle, Scope};
use tmw_events::Kind;
use tmw_ring::{Refused, Ring};
use tmw_tm::Tm;

/// The promise of a thread that gives a worker back, which has run this script round after round with such answers.
#[derive(Drop)]
pub struct Playing<'a, J> {
    ring: &'a Ring,
    script: &'a [Vec<Kind>],
    before: Snapshot<Worker>,
    of: PhantomData<J>,
}

impl<'a, J: MemoryAnswers> Promise<(Worker, Option<Refused>)> for Playing<'a, J> {
    ghost use Rattle.tmw_workers.specs.Worker.{HasPlayedOn};

    ghost kept_by = { λ promise back. HasPlayedOn J.gave (promised_ring promise)
        (promised_script promise) (promised_worker promise) back.1 back.0 };
}

/// Plays, and gives the worker back with the refusal at which it was stopped, if any.
fn play<R: Wait, J: MemoryAnswers>(
    rt: &R,
    memory: &(dyn Tm + Sync),
    stage: BenchStage<'_>,
    mut worker: Worker,
    script: &[Vec<Kind>],
) -> (Worker, Option<Refused>)
    requires gives { GivesWithin (gives memory.now) J.gave }
    requires new { IsNewWorker stage.ring.now worker }
    requires script { (registers : ℕ) × IsTrue (are_transactions registers (calls_of script.now)) }
    ensures { HasPlayedOn J.gave stage.entry.ring.now (calls_of script.now) worker result.1
        result.0 }
{
    let stop = play_on::<R, J>(rt, memory, stage, &mut worker, script);
    (worker, stop)
}

/// Starts a thread for each worker, in which the script at its place runs, if there are threads for all.
pub fn start_all<'s, E, R: Wait + Sync, J: MemoryAnswers + Send + 's>(
    rt: &'s R,
    scope: &Scope<'s, E>,
    alloc: Global,
    memory: &'s (dyn Tm + Sync),
    stage: BenchStage<'s>,
    workers: Vec<Worker>,
) -> Result<Vec<PromisedHandle<(Worker, Option<Refused>), Playing<'s, J>>>, BenchFault>
    requires gives { GivesWithin (gives memory.now) J.gave }
    requires new { AreNewWorkers stage.ring.now workers.items }
    requires count { length workers.items ≡ length stage.scripts.now }
    requires scripts { AreTransactions (scripts_of stage.scripts.now) }
    ensures count { IfOk result (λ handles. length handles.items ≡ length workers.items) }
    ensures promised { IfOk result
        (λ handles. (place : ℕ) (fallback : _) → place < length handles.items
        → IsPromised stage.entry.ring.now (scripts_of stage.entry.scripts.now) workers.items place
        (promised_ring (get_or handles.items place fallback).promise)
        (promised_script (get_or handles.items place fallback).promise)
        (promised_worker (get_or handles.items place fallback).promise)) }
    ensures err { IfErr result IsOfThreads }
{
    let mut handles = Vec::new(alloc);
    let mut place = 0;
    for worker in workers {
        let script = stage.scripts[place].as_slice();
        place += 1;
        let promise: Playing<'s, J> = Playing {
            ring: stage.ring,
            script,
            before: Snapshot::of(&worker),
            of: PhantomData,
        };
        let Ok(handle) = scope.spawn_with(
            promise,
            move || -> (Worker, Option<Refused>)
                requires gives { GivesWithin (gives memory.now) J.gave }
                requires new { IsNewWorker stage.ring.now worker }
                requires script { (registers : ℕ)
                    × IsTrue (are_transactions registers (calls_of script.now)) }
                ensures { HasPlayedOn J.gave stage.entry.ring.now (calls_of script.entry.now) worker
                    result.1 result.0 }
            { play::<R, J>(rt, memory, stage, worker, script) },
        ) else {
            return Err(BenchFault::Spawn);
        };
        let Ok(()) = handles.push(handle) else {
            return Err(BenchFault::Memory);
        };
    }
    Ok(handles)
}
