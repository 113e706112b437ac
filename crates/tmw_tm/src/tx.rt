ghost use Rattle.std.specs.Prelude.{◌≡◌, false, []};

use arrayvec::ArrayVec;
use tmw_events::Ix;

/// A register and a value that a transaction has read from it, or is to write to it.
#[derive(Clone, Copy, PartialEq, Eq, Debug)]
pub struct Entry {
    pub register: Ix,
    pub value: u64,
}

impl Default for Entry {
    fn default() -> Entry {
        Entry {
            register: Ix { number: 0 },
            value: 0,
        }
    }
}

/// At most 16 entries, the oldest first. They allocate nothing.
pub type Entries = ArrayVec<Entry, 16>;

/// A transaction as its memory sees it. It belongs to one memory, which alone changes it; what the fields hold is for that
/// memory to say.
#[derive(Drop)]
pub struct Tx {
    /// The memory's clock when what was read was last known to hold.
    pub snapshot: u64,
    /// The transaction has begun and has not ended.
    pub begun: bool,
    /// What was read.
    pub reads: Entries,
    /// What is to be written.
    pub writes: Entries,
}

impl Tx {
    /// Returns a transaction that has not begun. It allocates nothing.
    pub fn new() -> Tx
        ensures snapshot { result.snapshot ≡ 0 }
        ensures begun { result.begun ≡ false }
        ensures reads { result.reads.items ≡ [] }
        ensures writes { result.writes.items ≡ [] }
    {
        Tx {
            snapshot: 0,
            begun: false,
            reads: Entries::new(),
            writes: Entries::new(),
        }
    }
}
