ghost use Rattle.std.specs.Prelude.{◌≡◌, IfSome, IfNone};
ghost use Rattle.tmw_trace.specs.Text.{values_text};
ghost use Rattle.tmw_lines.specs.Grammar.{IsNoHeader};
ghost use Rattle.tmw_steps.specs.Text.{size_numbers, size_text, steps_grammar, FitsSize};

use tmw_trace::first_value;

/// The numbers of a first line: those of a ring's cells, of its writers and of its places in all. No ring may have them, or one may.
#[derive(Clone, Copy, PartialEq, Eq, Debug)]
pub struct SizeLine {
    pub cells: u64,
    pub writers: u64,
    pub limit: u64,
}

/// Returns the size whose text these bytes are, and `None` for all other bytes. The text is the first line without
/// its line feed. Whether a ring may have this size is tested elsewhere.
pub fn size_of(bytes: &[u8]) -> Option<SizeLine>
    ensures some { IfSome result (λ size. bytes.now ≡ size_text size) }
    ensures fits { IfSome result FitsSize }
    ensures none { IfNone result (IsNoHeader steps_grammar bytes.now) }
{
    match bytes {
        [
            b'r',
            b'i',
            b'n',
            b'g',
            b'-',
            b's',
            b't',
            b'e',
            b'p',
            b's',
            b' ',
            b'1',
            rest @ ..,
        ] => { numbers_of(rest) }
        _ => None,
    }
}

/// The size whose numbers these bytes are the text of, each after one space.
fn numbers_of(bytes: &[u8]) -> Option<SizeLine>
    ensures some { IfSome result (λ size. bytes.now ≡ values_text (size_numbers size)) }
    ensures fits { IfSome result FitsSize }
    ensures none { IfNone result
        ((size : SizeLine) → FitsSize size → bytes.now ≡ values_text (size_numbers size) → ⊥) }
{
    let Some((cells, first)) = first_value(bytes) else {
        return None;
    };
    let after_cells = &bytes[first..];
    let Some((writers, second)) = first_value(after_cells) else {
        return None;
    };
    let after_writers = &after_cells[second..];
    let Some((limit, third)) = first_value(after_writers) else {
        return None;
    };
    if third == after_writers.len() {
        Some(SizeLine {
            cells,
            writers,
            limit,
        })
    } else {
        None
    }
}
