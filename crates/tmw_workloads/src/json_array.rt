ghost use Rattle.tmw_workloads.specs.Shared.{Data, array, items_of, view};
ghost use Rattle.std.specs.Prelude.{IfNone, IfSome, List, length, ◌≡◌, ◌≤◌};
ghost use Rattle.tmw_workloads.specs.Json.{list_data};

use serde_json::Value;

/// The values in an array of at most this many.
pub(crate) fn values_of(content: &Value, most: usize) -> Option<&[Value]>
    ensures some { IfSome result (λ values. view content.now ≡ list_data view values.now) }
    ensures most { IfSome result (λ values. length values.now ≤ most) }
    ensures none { IfNone result
        ((items : List Data) → length items ≤ most → view content.now ≡ array (items_of items)
        → ⊥) }
{
    let Some(values) = content.as_array() else {
        return None;
    };
    if values.len() > most {
        return None;
    }
    Some(values.as_slice())
}
