ghost use Rattle.tmw_workloads.specs.Shared.{script_of, scripts_of, view};
ghost use Rattle.std.specs.Prelude.{IfErr, IfOk, ◌≡◌};
ghost use Rattle.tmw_workloads.specs.Json.{list_data, script_data};
ghost use Rattle.tmw_workloads.specs.WorkloadParts.{AreScripts, IsNoPart, IsScript};
ghost use Rattle.tmw_workloads.specs.declared.fault.WorkloadFault.TheVariants.{Json, Shape};

use crate::fault::WorkloadFault;
use crate::json_array::values_of;
use crate::transaction::read_transaction;
use serde_json::Value;
use std::alloc::Global;
use tmw_events::{Kind, Registers};

/// The most transactions that a script may have.
const MOST_TRANSACTIONS: usize = 1000;

/// The most scripts: one for each thread.
const MOST_SCRIPTS: usize = 8;

/// The scripts that this value is of. Never `Json`.
pub(crate) fn read_scripts(
    alloc: Global,
    registers: Registers,
    content: &Value,
) -> Result<Vec<Vec<Vec<Kind>>>, WorkloadFault>
    ensures right { IfOk result
        (λ scripts. AreScripts registers.number (scripts_of scripts.items)) }
    ensures ok { IfOk result
        (λ scripts. view content.now ≡ list_data script_data (scripts_of scripts.items)) }
    ensures shape { IfErr result (λ fault. fault ≡ Shape
        → IsNoPart (list_data script_data) (AreScripts registers.number) (view content.now)) }
    ensures json { IfErr result (λ fault. fault ≡ Json → ⊥) }
{
    let Some(values) = values_of(content, MOST_SCRIPTS) else {
        return Err(WorkloadFault::Shape);
    };
    if values.is_empty() {
        return Err(WorkloadFault::Shape);
    }
    let mut scripts = Vec::new(alloc);
    for value in values {
        let script = read_script(alloc, registers, value)?;
        let Ok(()) = scripts.push(script) else {
            return Err(WorkloadFault::Memory);
        };
    }
    Ok(scripts)
}

/// The transactions of the script that this value is of. Never `Json`.
fn read_script(
    alloc: Global,
    registers: Registers,
    content: &Value,
) -> Result<Vec<Vec<Kind>>, WorkloadFault>
    ensures right { IfOk result (λ script. IsScript registers.number (script_of script)) }
    ensures ok { IfOk result (λ script. view content.now ≡ script_data (script_of script)) }
    ensures shape { IfErr result (λ fault. fault ≡ Shape
        → IsNoPart script_data (IsScript registers.number) (view content.now)) }
    ensures json { IfErr result (λ fault. fault ≡ Json → ⊥) }
{
    let Some(values) = values_of(content, MOST_TRANSACTIONS) else {
        return Err(WorkloadFault::Shape);
    };
    let mut script = Vec::new(alloc);
    for value in values {
        let calls = read_transaction(alloc, registers, value)?;
        let Ok(()) = script.push(calls) else {
            return Err(WorkloadFault::Memory);
        };
    }
    Ok(script)
}
