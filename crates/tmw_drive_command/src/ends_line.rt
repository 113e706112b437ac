ghost use Rattle.tmw_drive_command.specs.Shared.{view};
ghost use Rattle.std.specs.Prelude.{IfOk, map, string_bytes, ◌≡◌};
ghost use Rattle.tmw_drive_command.specs.Ends.{end_word, ends_line};
ghost use Rattle.tmw_drive_command.specs.EndsLine.{end_data, ends_object};

use serde_json::{Value, json};
use std::alloc::{AllocError, Global};
use tmw_ring::Refused;
use tmw_workers::Ending;

/// Returns the line that tells how each thread has ended: an object in compact JSON with one text for each end, in
/// order, and a line feed. It fails only after a failed allocation.
pub fn ends_text(alloc: Global, ends: &[Ending]) -> Result<String, AllocError>
    ensures { IfOk result (λ line. string_bytes line ≡ ends_line ends.now) }
{
    let mut line = object_of(alloc, ends)?.to_string(alloc)?;
    line.push('\n')?;
    Ok(line)
}

/// The object that tells how each thread has ended.
fn object_of(alloc: Global, ends: &[Ending]) -> Result<Value, AllocError>
    ensures { IfOk result (λ object. view object ≡ ends_object ends.now) }
{
    let words = words_of(alloc, ends)?;
    json!(in alloc; {"ends": words})
}

/// The word for each end.
fn words_of(alloc: Global, ends: &[Ending]) -> Result<Vec<Value>, AllocError>
    ensures { IfOk result (λ words. map view words.items ≡ map end_data ends.now) }
{
    let mut words = Vec::new(alloc);
    for end in ends {
        words.push(Value::try_from_str(alloc, word_of(*end))?)?;
    }
    Ok(words)
}

/// The word for an end.
const fn word_of(end: Ending) -> &'static str
    ensures { result.now ≡ end_word end }
{
    match end {
        Ending::Done => "done",
        Ending::Left => "left",
        Ending::Stopped(Refused::Full { .. }) => "full",
        Ending::Stopped(Refused::Spent { .. }) => "spent",
    }
}
