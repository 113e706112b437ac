ghost use Rattle.std.specs.Prelude.{OnOk, Some, ◌++◌, ◌≡◌};
ghost use Rattle.tmw_texts.specs.TransactionNames.{begun_at, label_at, name_text};

use std::alloc::AllocError;
use std::fmt;
use tmw_kept::Name;

/// Prints the name of the transaction at this place among those of the window.
#[derive(Clone, Copy)]
pub struct TransactionName(pub usize);

impl fmt::Display for TransactionName {
    ghost output = { λ tx. Some (name_text tx.0) };

    fn fmt<W: fmt::Write>(&self, f: &mut fmt::Formatter<W>) -> fmt::Result {
        let number = self.0 as u128 + 1;
        write!(f, "T{number}")
    }
}

/// Finds the transaction whose first event that is shown has this place in the window.
fn begun_at(names: &[Name], place: usize) -> Option<usize>
    ensures { result ≡ begun_at names.now place }
{
    names
        .iter()
        .find(|name| name.first == place)
        .map(|name| name.transaction)
}

/// Adds what stands before the event at this place of the window: the name of the transaction whose first event it is,
/// or blanks.
pub fn push_label(text: &mut Vec<u8>, names: &[Name], place: usize) -> Result<(), AllocError>
    ensures { OnOk result (text.new.items ≡ text.old.items ++ label_at names.now place) }
{
    match begun_at(names, place) {
        Some(transaction) => {
            let tx = TransactionName(transaction);
            let label = format!(in *text.allocator(); "{tx} ")?;
            text.extend_from_slice(label.as_bytes())?;
        }
        None => text.extend_from_slice(b"   ")?,
    }
    Ok(())
}
