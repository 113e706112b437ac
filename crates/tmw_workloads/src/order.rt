ghost use Rattle.tmw_workloads.specs.Shared.{view};
ghost use Rattle.std.specs.Prelude.{IfErr, IfNone, IfOk, IfSome, ◌<◌, ◌≡◌};
ghost use Rattle.tmw_workloads.specs.Json.{list_data, number_data};
ghost use Rattle.tmw_workloads.specs.WorkloadParts.{IsNoPart, IsOrder};
ghost use Rattle.tmw_workloads.specs.declared.fault.WorkloadFault.TheVariants.{Json, Shape};

use crate::fault::WorkloadFault;
use crate::json_array::values_of;
use serde_json::Value;
use std::alloc::Global;

/// The most entries that an order may have.
const MOST_ENTRIES: usize = 100_000;

/// The order of so many threads that this value is. Never `Json`.
pub(crate) fn read_order(
    alloc: Global,
    threads: u8,
    content: &Value,
) -> Result<Vec<u8>, WorkloadFault>
    ensures right { IfOk result (λ order. IsOrder threads order.items) }
    ensures ok { IfOk result (λ order. view content.now ≡ list_data number_data order.items) }
    ensures shape { IfErr result
        (λ fault. fault ≡ Shape
        → IsNoPart (list_data number_data) (IsOrder threads) (view content.now)) }
    ensures json { IfErr result (λ fault. fault ≡ Json → ⊥) }
{
    let Some(values) = values_of(content, MOST_ENTRIES) else {
        return Err(WorkloadFault::Shape);
    };
    let mut order = Vec::new(alloc);
    for value in values {
        let Some(thread) = read_thread(threads, value) else {
            return Err(WorkloadFault::Shape);
        };
        let Ok(()) = order.push(thread) else {
            return Err(WorkloadFault::Memory);
        };
    }
    Ok(order)
}

/// The number of one of so many threads that this value is.
fn read_thread(threads: u8, content: &Value) -> Option<u8>
    ensures some { IfSome result (λ thread. view content.now ≡ number_data thread) }
    ensures below { IfSome result (λ thread. thread < threads) }
    ensures none { IfNone result
        (IsNoPart number_data (λ thread. thread < threads) (view content.now)) }
{
    let Some(number) = content.as_u64() else {
        return None;
    };
    if number < u64::from(threads) {
        Some(number as u8)
    } else {
        None
    }
}
