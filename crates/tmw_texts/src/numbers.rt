ghost use Rattle.tmw_texts.specs.Shared.{decimal, values_text};
ghost use Rattle.std.specs.Prelude.{OnOk, ◌++◌, ◌∷◌, ◌≡◌};
ghost use Rattle.tmw_texts.specs.ItemTexts.{blanks};

use crate::item_text::{ItemText, push_each};
use std::alloc::AllocError;

/// Adds each of these values after one space.
pub fn push_values(text: &mut Vec<u8>, values: &[u64]) -> Result<(), AllocError>
    ensures { OnOk result (text.new.items ≡ text.old.items ++ values_text values.now) }
{
    push_each(text, &SpacedValue, values)
}

/// A value after one space.
#[derive(Drop)]
struct SpacedValue;

impl ItemText<u64> for SpacedValue {
    ghost part = { λ own value. 32 ∷ decimal value };

    fn push(&self, text: &mut Vec<u8>, value: &u64) -> Result<(), AllocError> {
        let spaced = format!(in *text.allocator(); " {value}")?;
        text.extend_from_slice(spaced.as_bytes())?;
        Ok(())
    }
}

/// Adds so many blanks.
pub fn push_blanks(text: &mut Vec<u8>, count: usize) -> Result<(), AllocError>
    ensures { OnOk result (text.new.items ≡ text.old.items ++ blanks count) }
{
    for _place in 0..count {
        text.push(b' ')?;
    }
    Ok(())
}
