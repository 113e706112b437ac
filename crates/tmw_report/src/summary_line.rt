ghost use Rattle.std.specs.Prelude.{◌≡◌, IfOk, string_bytes};
ghost use Rattle.serde_json.specs.View.{view};
ghost use Rattle.tmw_report.specs.SummaryLine.{summary_object, summary_text};

use serde_json::{Value, json};
use std::alloc::{AllocError, Global};
use tmw_defs::Counts;

/// Returns the line of the counts: an object in compact JSON, with its keys in byte order and then a line feed. Fails only
/// if an allocation fails.
pub fn summary_text(alloc: Global, counts: &Counts) -> Result<String, AllocError>
    ensures { IfOk result (λ line. string_bytes line ≡ summary_text counts.now) }
{
    let mut line = object_of(alloc, counts)?.to_string(alloc)?;
    line.push('\n')?;
    Ok(line)
}

fn object_of(alloc: Global, counts: &Counts) -> Result<Value, AllocError>
    ensures { IfOk result (λ object. view object ≡ summary_object counts.now) }
{
    json!(in alloc; {
        "aborted": counts.aborted,
        "committed": counts.committed,
        "concurrent": counts.overlapping,
        "cuts": counts.cuts,
        "forced_aborts": counts.unasked,
        "live": counts.live,
        "max_window": counts.widest,
        "transactions": counts.transactions
    })
}
