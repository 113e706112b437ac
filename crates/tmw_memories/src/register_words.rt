ghost use Rattle.std.specs.Prelude.{◌≡◌, [], IsTrue};

use std::array;
use std::sync::atomic::{AtomicU64, Ordering};
use tmw_events::{Ix, MOST_REGISTERS};
use tmw_tm::Entry;

/// The values of the registers, which several threads load and store.
#[derive(Drop)]
pub struct Words {
    words: [AtomicU64; MOST_REGISTERS],
}

impl Words {
    /// Makes words that are all 0.
    pub fn zeros() -> Words {
        Words {
            words: array::from_fn(|_| AtomicU64::new(0)),
        }
    }

    /// Returns the value that the register has now.
    pub fn load(&self, register: Ix) -> u64 {
        self.words[usize::from(register.get())].load(Ordering::SeqCst)
    }

    /// Tells whether each of these registers has the value of its entry, each at the moment when it is loaded.
    pub fn hold(&self, entries: &[Entry]) -> bool
        ensures { entries.now ≡ [] → IsTrue result }
    {
        entries
            .iter()
            .all(|entry| self.load(entry.register) == entry.value)
    }

    /// Stores these values in their registers, one after another.
    pub fn store(&self, entries: &[Entry]) {
        for entry in entries {
            self.words[usize::from(entry.register.get())].store(entry.value, Ordering::SeqCst);
        }
    }
}
