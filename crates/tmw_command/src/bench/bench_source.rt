ghost use Rattle.tmw_command.specs.Shared.{IsHeaderOf, IsNeededOf, Memory, Opacity, memory_is};
ghost use Rattle.tmw_streams.specs.Transfers.{Tells};
ghost use Rattle.tmw_report.specs.CommandRun.{failures_after_answer};
ghost use Rattle.std.specs.Prelude.{IfErr, IfOk, List, ℕ, ◌≡◌};
ghost use Rattle.tmw_command.specs.BenchRun.{benched_of, hunted_of};
ghost use Rattle.tmw_command.specs.RunBench.{AnswersBench, AnswersHunt, fault_of};

use crate::bench::bench_run::BenchRun;
use crate::bench::hunt_run::HuntRun;
use std::alloc::Global;
use std::sync::Wait;
use std::thread::Threads;
use tmw_args::BenchOptions;
use tmw_bench::{BenchFault, BenchResult, HuntResult, Progress, Settings, hunt, run_bench};
use tmw_defs::Criterion;
use tmw_drive_command::{DriveRun, header_of, read_source};
use tmw_events::Registers;
use tmw_report::Fault;
use tmw_show::ShownTrace;
use tmw_streams::Source;
use tmw_tm::Tm;

/// Reads a workload up to the source's end, and runs it in threads on the memory. The log is kept.
pub fn bench_source<S: Source, R: Threads + Wait + Sync>(
    rt: &R,
    alloc: Global,
    source: &mut S,
    memory: &(dyn Tm + Sync),
    settings: Settings,
) -> Result<BenchRun, Fault>
    ensures right { (bytes : List ℕ) × Tells S.from source.old bytes source.new
        × AnswersBench (memory_is (has memory.now) (gives memory.now)) settings
        (S.from.ended source.new) bytes result }
    ensures failures { S.from.failures source.new ≡ failures_after_answer result
        (S.from.failures source.old) }
{
    let workload = read_source(alloc, source)?;
    match run_bench(rt, alloc, memory, &workload, settings) {
        Ok(benched) => Ok(with_header(workload.registers, benched)),
        Err(fault) => Err(fault_of(fault)),
    }
}

/// Reads a workload up to the source's end, and runs it in threads on the memory, as these options say. Of the log only
/// the last window is kept.
pub fn hunt_source<S: Source, R: Threads + Wait + Sync, P: Progress>(
    rt: &R,
    alloc: Global,
    source: &mut S,
    memory: &(dyn Tm + Sync),
    options: &BenchOptions,
    progress: &P,
) -> Result<HuntRun, Fault>
    ensures right { (bytes : List ℕ) × Tells S.from source.old bytes source.new
        × AnswersHunt (memory_is (has memory.now) (gives memory.now)) options.now
        (S.from.ended source.new) bytes result }
    ensures failures { S.from.failures source.new ≡ failures_after_answer result
        (S.from.failures source.old) }
{
    let workload = read_source(alloc, source)?;
    match hunt(rt, alloc, memory, &workload, options.settings, progress) {
        Ok(hunted) => with_registers(alloc, options.why, workload.registers, hunted),
        Err(fault) => Err(fault_of(fault)),
    }
}

/// What threads have made of a workload over so many registers, with the header of its log.
fn with_header(registers: Registers, benched: BenchResult) -> BenchRun
    ensures header { IsHeaderOf registers result.driven.outcome.log.items result.driven.header }
    ensures same { benched_of result ≡ benched }
{
    BenchRun {
        driven: DriveRun {
            header: header_of(registers, &benched.outcome.log),
            outcome: benched.outcome,
            summary: benched.summary,
        },
        rounds: benched.rounds,
    }
}

/// What threads have made of a workload, with its registers and, if it is asked why, what is needed of its last window.
fn with_registers(
    alloc: Global,
    why: bool,
    registers: Registers,
    hunted: HuntResult,
) -> Result<HuntRun, Fault>
    ensures registers { IfOk result (λ run. run.shown.registers ≡ registers) }
    ensures same { IfOk result (λ run. hunted_of run ≡ hunted) }
    ensures needed { IfOk result
        (λ run. IsNeededOf Opacity why run.shown.registers run.shown.showing run.shown.needed) }
    ensures memory { IfErr result (λ fault. fault ≡ Memory) }
{
    match ShownTrace::new(alloc, Criterion::Opacity, why, registers, hunted.showing) {
        Ok(shown) => Ok(HuntRun {
            shown,
            summary: hunted.summary,
            ends: hunted.ends,
            rounds: hunted.rounds,
        }),
        Err(_) => Err(Fault::Memory),
    }
}

/// The fault by which the command answers that no run was judged to its end.
const fn fault_of(fault: BenchFault) -> Fault
    ensures { result ≡ fault_of fault }
{
    match fault {
        BenchFault::Registers => Fault::Registers,
        BenchFault::Ring(_) => Fault::Ring,
        BenchFault::Memory => Fault::Memory,
        BenchFault::Spawn => Fault::Spawn,
    }
}
