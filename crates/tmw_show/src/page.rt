ghost use Rattle.std.specs.Prelude.{IfOk, ◌≡◌};
ghost use Rattle.tmw_show.specs.Page.{page_text};

mod constants;
mod json;

use crate::page::constants::{HEAD, TAIL};
use crate::page::json::push_json;
use crate::shown_trace::ShownTrace;
use std::alloc::{AllocError, Global};
use tmw_defs::Criterion;

/// Makes the page of what is shown by this criterion, of a trace before which so many events of the run come: a constant
/// head, what is shown as one JSON object, and a constant tail, which draws it. It fails only after a failed allocation.
pub fn page_text(
    alloc: Global,
    criterion: Criterion,
    before: u64,
    shown: &ShownTrace,
) -> Result<Vec<u8>, AllocError>
    ensures { IfOk result (λ text. text.items ≡ page_text criterion before shown.now) }
{
    let mut text = Vec::new(alloc);
    text.extend_from_slice(HEAD)?;
    push_json(alloc, &mut text, criterion, before, shown)?;
    text.extend_from_slice(TAIL)?;
    Ok(text)
}
