ghost use Rattle.tmw_drive.specs.Shared.{scripts_of};
ghost use Rattle.std.specs.Prelude.{IfErr, IfOk, length, ℕ, ◌<◌, ◌^◌, ◌↔◌, ◌≡◌, ◌≢◌, ◌≤◌};
ghost use Rattle.tmw_defs.specs.Opaque.{zeros};
ghost use Rattle.tmw_defs.specs.Verdict.{IsVerdict};
ghost use Rattle.tmw_defs.specs.declared.verdict.Verdict.TheVariants.{Malformed};
ghost use Rattle.tmw_drive.specs.Drive.{IsDriven};
ghost use Rattle.tmw_monitor.specs.Fits.{rules_of};
ghost use Rattle.tmw_drive.specs.declared.fault.DriveFault.TheVariants.{Registers as TooManyRegisters};

use crate::fault::DriveFault;
use crate::play::{ends_of, new_players, play};
use std::alloc::{AllocError, Global};
use tmw_events::Event;
use tmw_monitor::{Bounds, judge};
use tmw_tm::Tm;
use tmw_workers::{Ending, Outcome};
use tmw_workloads::Workload;

/// Makes the calls of the workload's scripts in one thread, and judges the log within the bounds, from registers that
/// are all 0. The memory should be new.
///
/// Each entry of the order lets that thread make the next call of its script: the call is recorded, then made, then its
/// answer is recorded. A transaction begins, with a new `Tx`, before its first call; if the memory aborts it then, the
/// call is not made. After a commit or an abort event the script goes on with its next transaction. A thread without a
/// call left does nothing. Transactions that the order leaves open are not aborted.
///
/// Errors: `Registers` exactly if the memory has fewer registers than the workload; then nothing else is called.
/// `Memory` after a failed allocation; what was called until then is lost to the caller.
pub fn drive(
    alloc: Global,
    memory: &(dyn Tm + Sync),
    workload: &Workload,
    bounds: Bounds,
) -> Result<Outcome, DriveFault>
    ensures driven { IfOk result
        (λ outcome. IsDriven (gives memory.now) (scripts_of workload.now.scripts.items)
        workload.now.order.items outcome.log.items outcome.ends.items) }
    ensures verdict { IfOk result
        (λ outcome. IsVerdict (rules_of workload.now.registers zeros bounds) outcome.log.items
        outcome.verdict) }
    ensures formed { IfOk result (λ outcome. (events : ℕ) → outcome.verdict ≢ Malformed events) }
    ensures few { IfOk result (λ outcome. length outcome.log.items ≤ 2 ^ 40) }
    ensures enough { IfOk result (λ outcome. workload.now.registers.number ≤ has memory.now) }
    ensures too_few { IfErr result
        (λ fault. (fault ≡ TooManyRegisters) ↔ (has memory.now < workload.now.registers.number)) }
{
    if memory.registers().get() < workload.registers.get() {
        return Err(DriveFault::Registers);
    }
    let (log, ends) = record(alloc, memory, workload)?;
    let verdict = judge(alloc, workload.registers, bounds, &log)?;
    Ok(Outcome { log, verdict, ends })
}

/// Makes the calls of the workload's scripts in its order, and answers the log and the ends.
fn record(
    alloc: Global,
    memory: &(dyn Tm + Sync),
    workload: &Workload,
) -> Result<(Vec<Event>, Vec<Ending>), AllocError>
    ensures { IfOk result
        (λ recorded. IsDriven (gives memory.now) (scripts_of workload.now.scripts.items)
        workload.now.order.items recorded.0.items recorded.1.items) }
{
    let mut players = new_players(alloc, workload.scripts.len() as u8)?;
    let mut log = Vec::new(alloc);
    play(
        memory,
        &workload.scripts,
        &workload.order,
        &mut players,
        &mut log,
    )?;
    let ends = ends_of(alloc, &workload.scripts, &players)?;
    Ok((log, ends))
}
