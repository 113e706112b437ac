//! A worker, which plays its script round after round.
ghost use Rattle.tmw_workers.specs.Shared.{WriterOf, are_transactions, received, sent};
ghost use Rattle.tmw_workers.specs.Player.{calls_of};
ghost use Rattle.std.specs.Prelude.{◌≡◌, ℕ, [], IsTrue};
ghost use Rattle.tmw_workers.specs.WorkerConditions.{GivesWithin};
ghost use Rattle.tmw_workers.specs.Worker.{HasPlayedOn};

use crate::bench_stage::BenchStage;
use crate::memory_answers::MemoryAnswers;
use crate::memory_calls::DirectCalls;
use crate::round_end::RoundEnd;
use crate::waits::{next_bound, see, tell, wait_for_all};
use crate::work;
use rtrb::{Consumer, Producer};
use std::sync::Wait;
use tmw_events::Kind;
use tmw_ring::{Refused, Writer};
use tmw_tm::Tm;

/// What a worker has to record by and to be led by.
#[derive(Drop)]
pub struct Worker {
    pub writer: Writer,
    /// By this it tells that a round has ended.
    pub up: Producer<RoundEnd>,
    /// By this it is told where the round has ended, so that the next begins.
    pub down: Consumer<u64>,
}

/// Runs the script, and again each time that it is told where the last round has ended, until it is stopped or no
/// further round begins. Returns the refusal at which it was stopped, if any.
pub fn play_on<R: Wait, J: MemoryAnswers>(
    rt: &R,
    memory: &(dyn Tm + Sync),
    stage: BenchStage<'_>,
    worker: &mut Worker,
    script: &[Vec<Kind>],
) -> Option<Refused>
    requires gives { GivesWithin (gives memory.now) J.gave }
    requires of_ring { WriterOf stage.ring.now worker.old.writer }
    requires script { (registers : ℕ) × IsTrue (are_transactions registers (calls_of script.now)) }
    requires new { worker.old.writer.made ≡ [] }
    requires told { received worker.old.down ≡ [] }
    requires sent { sent worker.old.up ≡ [] }
    ensures { HasPlayedOn J.gave stage.entry.ring.now (calls_of script.now) worker.old result
        worker.new }
{
    let threads = stage.scripts.len() as u64;
    let mut begun = 0u64;
    for _ in rt.forever() {
        stage.orders.begun.rise(threads);
        begun = begun.saturating_add(threads);
        wait_for_all(rt, stage.orders, begun);
        let stop = work::<DirectCalls>(
            memory,
            stage.ring,
            &mut worker.writer,
            script,
            stage.patience,
            stage.signals,
        );
        if let Some(_) = stop {
            tell(rt, &mut worker.up, RoundEnd { tail: 0, stop });
            stage.orders.ended.rise(1);
            return stop;
        }
        let tail = stage.ring.find_tail(&mut worker.writer);
        tell(rt, &mut worker.up, RoundEnd { tail, stop });
        stage.orders.ended.rise(1);
        let Some(bound) = next_bound(rt, &mut worker.down, tail, stage.orders) else {
            return stop;
        };
        see(rt, stage.ring, &mut worker.writer, bound);
    }
    unreachable!()
}
