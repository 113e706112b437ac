ghost use Rattle.tmw_texts.specs.Shared.{flat_map};
ghost use Rattle.std.specs.Prelude.{List, OnOk, ℕ, ◌++◌, ◌≡◌};
ghost use Rattle.tmw_texts.specs.ItemTexts.{list_json};

use std::alloc::AllocError;

/// How items of a type are added to a text.
pub trait ItemText<I> {
    /// What is added for an item.
    ghost part: { Self → I → List ℕ };

    /// Adds the item's part.
    fn push(&self, text: &mut Vec<u8>, item: &I) -> Result<(), AllocError>
        ensures { OnOk result (text.new.items ≡ text.old.items ++ part self.now item.now) };
}

/// Adds each item's part.
pub fn push_each<P: ItemText<I>, I>(
    text: &mut Vec<u8>,
    part: &P,
    items: &[I],
) -> Result<(), AllocError>
    ensures { OnOk result
        (text.new.items ≡ text.old.items ++ flat_map (P.part part.now) items.now) }
{
    for item in items {
        part.push(text, item)?;
    }
    Ok(())
}

/// Adds the items of a list, each of whose parts begins with a comma, without the first comma.
pub fn push_list<P: ItemText<I>, I>(
    text: &mut Vec<u8>,
    part: &P,
    items: &[I],
) -> Result<(), AllocError>
    ensures { OnOk result
        (text.new.items ≡ text.old.items ++ list_json (P.part part.now) items.now) }
{
    let mut list = Vec::new(*text.allocator());
    push_each(&mut list, part, items)?;
    text.extend_from_slice(list.get(1..).unwrap_or(&[]))?;
    Ok(())
}
