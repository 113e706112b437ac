ghost use Rattle.tmw_workloads.specs.Shared.{view};
ghost use Rattle.std.specs.Prelude.{IfErr, IfOk, ◌≡◌};
ghost use Rattle.tmw_workloads.specs.Json.{transaction_data};
ghost use Rattle.tmw_workloads.specs.WorkloadParts.{IsTransaction, IsNoPart};
ghost use Rattle.tmw_workloads.specs.declared.fault.WorkloadFault.TheVariants.{Json, Shape};

use crate::calls::{is_transaction, read_kind};
use crate::fault::WorkloadFault;
use crate::json_array::values_of;
use serde_json::Value;
use std::alloc::Global;
use tmw_events::{Kind, Registers};

/// The most calls that a transaction may have.
const MOST_CALLS: usize = 64;

/// The calls of the transaction that this value is of. Never `Json`.
pub(crate) fn read_transaction(
    alloc: Global,
    registers: Registers,
    content: &Value,
) -> Result<Vec<Kind>, WorkloadFault>
    ensures right { IfOk result (λ calls. IsTransaction registers.number calls.items) }
    ensures ok { IfOk result (λ calls. view content.now ≡ transaction_data calls.items) }
    ensures shape { IfErr result (λ fault. fault ≡ Shape
        → IsNoPart transaction_data (IsTransaction registers.number) (view content.now)) }
    ensures json { IfErr result (λ fault. fault ≡ Json → ⊥) }
{
    let Some(values) = values_of(content, MOST_CALLS) else {
        return Err(WorkloadFault::Shape);
    };
    let mut calls = Vec::new(alloc);
    for value in values {
        let Some(call) = read_kind(value) else {
            return Err(WorkloadFault::Shape);
        };
        let Ok(()) = calls.push(call) else {
            return Err(WorkloadFault::Memory);
        };
    }
    if !is_transaction(registers, &calls) {
        return Err(WorkloadFault::Shape);
    }
    Ok(calls)
}
