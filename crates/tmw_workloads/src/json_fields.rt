ghost use Rattle.tmw_workloads.specs.Shared.{Data, view};
ghost use Rattle.std.specs.Prelude.{IfNone, IfSome, ◌≡◌};
ghost use Rattle.tmw_workloads.specs.Json.{fields_data};

use serde_json::Value;

/// What an object has at the keys of a workload.
#[derive(Clone, Copy)]
pub(crate) struct Fields<'a> {
    pub order: &'a Value,
    pub registers: &'a Value,
    pub scripts: &'a Value,
}

/// The fields of an object that has the keys of a workload and no other.
pub(crate) fn fields_of(content: &Value) -> Option<Fields<'_>>
    ensures some { IfSome result (λ fields. view content.now
        ≡ fields_data (view fields.order.now) (view fields.registers.now)
        (view fields.scripts.now)) }
    ensures none { IfNone result ((order registers scripts : Data)
        → view content.now ≡ fields_data order registers scripts → ⊥) }
{
    let Some(members) = content.as_object() else {
        return None;
    };
    let mut members = members.iter();
    let Some((first, order)) = members.next() else {
        return None;
    };
    let Some((second, registers)) = members.next() else {
        return None;
    };
    let Some((third, scripts)) = members.next() else {
        return None;
    };
    if first.as_str() != "order" || second.as_str() != "registers" || third.as_str() != "scripts" {
        return None;
    }
    match members.next() {
        None => Some(Fields {
            order,
            registers,
            scripts,
        }),
        Some(_) => None,
    }
}
