ghost use Rattle.tmw_workloads.specs.Shared.{view};
ghost use Rattle.std.specs.Prelude.{IfNone, IfSome, ◌<◌, ◌≡◌, ◌≤◌};
ghost use Rattle.tmw_workloads.specs.Json.{number_data};
ghost use Rattle.tmw_workloads.specs.WorkloadParts.{IsNoPart};

use serde_json::Value;
use tmw_events::Registers;

/// The number of registers, 1 to 8, that this value is.
pub(crate) fn read_registers(content: &Value) -> Option<Registers>
    ensures some { IfSome result (λ registers. view content.now ≡ number_data registers.number) }
    ensures none { IfNone result
        (IsNoPart number_data (λ registers. (0 < registers) × (registers ≤ 8)) (view content.now)) }
{
    let Some(number) = content.as_u64() else {
        return None;
    };
    if number > 8 {
        return None;
    }
    Registers::new(number as u8)
}
