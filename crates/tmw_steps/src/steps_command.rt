ghost use Rattle.std.specs.Prelude.{◌≡◌, ℕ, List};
ghost use Rattle.tmw_streams.specs.Transfers.{Tells};
ghost use Rattle.tmw_report.specs.CommandRun.{failures_after_answer};
ghost use Rattle.tmw_steps.specs.RunSteps.{AnswersSteps, IsMade, RunsSteps};

use crate::reply_line::put_replies;
use crate::step_list::StepList;
use crate::whole_steps::read_steps;
use std::alloc::Global;
use tmw_report::{FAULT_STATUS, Fault, answer_fault, fault_of};
use tmw_ring_steps::{Reply, RingFault, Sim};
use tmw_streams::{Sink, Source};

/// How a list of steps was answered, with the lengths of the log and of the list of events that were taken, after them.
#[derive(Debug, Drop)]
pub struct RingRun {
    pub replies: Vec<Reply>,
    pub log: u64,
    pub taken: u64,
}

/// Makes the source's steps on a new ring's machine, and writes the reply to each, a line each, and the line `log L
/// taken K`. The whole text is read first. For a fault its line alone is written. The result is the exit status: 0,
/// or 4 for any fault.
pub fn run_steps<S: Source, K: Sink>(alloc: Global, source: &mut S, sink: &mut K) -> u8
    ensures { RunsSteps S.from K.to
        source.old source.new sink.old sink.new result }
{
    match run_of(alloc, source) {
        Ok(run) => match put_replies(sink, &run.replies, run.log, run.taken) {
            Ok(()) => 0,
            Err(_) => FAULT_STATUS,
        },
        Err(fault) => answer_fault(sink, fault),
    }
}

/// Reads steps up to the source's end, and makes them.
fn run_of<S: Source>(alloc: Global, source: &mut S) -> Result<RingRun, Fault>
    ensures right { (bytes : List ℕ) × Tells S.from source.old bytes source.new
        × AnswersSteps (S.from.ended source.new) bytes result }
    ensures failures { S.from.failures source.new ≡ failures_after_answer result
        (S.from.failures source.old) }
{
    match read_steps(alloc, source) {
        Ok(list) => made_of(alloc, &list),
        Err(fault) => Err(fault_of(fault)),
    }
}

/// Makes steps on a new ring's machine.
fn made_of(alloc: Global, list: &StepList) -> Result<RingRun, Fault>
    ensures { IsMade list.now.size list.now.steps.items result }
{
    let size = list.size;
    let mut sim = match Sim::new(alloc, size.cells, size.writers, size.limit) {
        Ok(sim) => sim,
        Err(RingFault::BadSize) => return Err(Fault::Size),
        Err(RingFault::BadLimit) => return Err(Fault::Limit),
        Err(RingFault::Memory) => return Err(Fault::Memory),
    };
    let Ok(replies) = sim.run(alloc, &list.steps) else {
        return Err(Fault::Memory);
    };
    Ok(RingRun {
        replies,
        log: sim.log().len() as u64,
        taken: sim.taken().len() as u64,
    })
}
