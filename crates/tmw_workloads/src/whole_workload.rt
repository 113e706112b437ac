ghost use Rattle.tmw_workloads.specs.Shared.{scripts_of, view};
ghost use Rattle.std.specs.Prelude.{IfErr, IfOk, ◌≡◌};
ghost use Rattle.tmw_workloads.specs.Json.{workload_data, FitScripts, IsWorkloadText, IsNoWorkload, IsOtherText, IsNoText};
ghost use Rattle.tmw_workloads.specs.declared.fault.WorkloadFault.TheVariants.{Json, Shape};

use crate::fault::WorkloadFault;
use crate::json_fields::fields_of;
use crate::order::read_order;
use crate::registers::read_registers;
use crate::scripts::read_scripts;
use crate::workload::Workload;
use serde_json::Value;
use std::alloc::Global;

/// Reads a workload from JSON text in UTF-8.
///
/// The value is an object with exactly these keys:
/// - `registers`: a whole number from 1 to 8.
/// - `scripts`: an array of 1 to 8 scripts. A script is an array of at most 1,000 transactions, and a transaction one
///   of 1 to 64 strings. Each is the text of a call as in a trace: the last is `T` or `X`, and each other is an `R`,
///   `W` or `N` of a register below `registers`.
/// - `order`: an array of at most 100,000 whole numbers, each below the number of scripts.
///
/// Of equal keys the last counts. A whole number is written without a sign, a fraction or an exponent, and has at most
/// 64 bits.
///
/// Errors: `Json` for what is no JSON text, by the limits of `serde_json`, where arrays and objects nest at most 127
/// deep; `Shape` for JSON of any other value; `Memory` for a failed allocation, which only tests show.
pub fn read_workload(alloc: Global, bytes: &[u8]) -> Result<Workload, WorkloadFault>
    ensures ok { IfOk result (λ workload.
        IsWorkloadText workload.registers.number (scripts_of workload.scripts.items)
        workload.order.items bytes.now) }
    ensures shape { IfErr result (λ fault. fault ≡ Shape → IsOtherText bytes.now) }
    ensures json { IfErr result (λ fault. fault ≡ Json → IsNoText bytes.now) }
{
    match Value::from_slice(alloc, bytes) {
        Ok(content) => workload_of(alloc, &content),
        Err(error) => Err(if error.is_memory() {
            WorkloadFault::Memory
        } else {
            WorkloadFault::Json
        }),
    }
}

/// The workload that this value is of. Never `Json`.
fn workload_of(alloc: Global, content: &Value) -> Result<Workload, WorkloadFault>
    ensures ok { IfOk result (λ workload. view content.now
        ≡ workload_data workload.registers.number (scripts_of workload.scripts.items)
        workload.order.items) }
    ensures fits { IfOk result (λ workload. FitScripts (scripts_of workload.scripts.items)) }
    ensures shape { IfErr result (λ fault. fault ≡ Shape → IsNoWorkload (view content.now)) }
    ensures json { IfErr result (λ fault. fault ≡ Json → ⊥) }
{
    let Some(fields) = fields_of(content) else {
        return Err(WorkloadFault::Shape);
    };
    let Some(registers) = read_registers(fields.registers) else {
        return Err(WorkloadFault::Shape);
    };
    let scripts = read_scripts(alloc, registers, fields.scripts)?;
    let order = read_order(alloc, scripts.len() as u8, fields.order)?;
    Ok(Workload {
        registers,
        scripts,
        order,
    })
}
