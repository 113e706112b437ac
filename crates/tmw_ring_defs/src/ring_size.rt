ghost use Rattle.std.specs.Prelude.{◌≤◌, ◌^◌};

use crate::ring_fault::RingFault;

/// The most writers that a ring may have.
pub const MOST_WRITERS: u64 = 8;

/// The most cells that a ring may have.
pub const MOST_CELLS: u64 = 4096;

/// The most places that a ring may give.
pub const MOST_PLACES: u64 = 1 << 40;

/// The size of a ring of events. A ring has 1 to 8 writers, no fewer cells than writers and at most 4,096 cells, and
/// gives no fewer places than it has writers and at most 2^40 of them.
#[derive(Clone, Copy, PartialEq, Eq, Debug)]
pub struct RingSize {
    /// How many events stand in the ring at once.
    pub cells: u64,
    /// How many threads write events into it.
    pub writers: u64,
    /// How many places it gives in all.
    pub limit: u64,
    pub ghost some_writers: { 1 ≤ writers },
    pub ghost most_writers: { writers ≤ 8 },
    pub ghost enough_cells: { writers ≤ cells },
    pub ghost most_cells: { cells ≤ 4096 },
    pub ghost enough_places: { writers ≤ limit },
    pub ghost most_places: { limit ≤ 2 ^ 40 },
}

impl RingSize {
    ghost use Rattle.std.specs.Prelude.{◌≡◌, IfOk, IfErr};
    ghost use Rattle.tmw_ring_defs.specs.Room.{is_spent, is_full};
    ghost use Rattle.tmw_ring_defs.specs.RingSize.{HasNumbers, IsWrongSize};

    /// Makes a size of these numbers. `BadSize`: there are not 1 to 8 writers, or fewer cells than writers, or more
    /// than 4,096 cells. `BadLimit`: cells and writers are right, and the limit is below the number of writers or
    /// above 2^40.
    pub fn new(cells: u64, writers: u64, limit: u64) -> Result<RingSize, RingFault>
        ensures ok { IfOk result (HasNumbers cells writers limit) }
        ensures err { IfErr result (IsWrongSize cells writers limit) }
    {
        if writers < 1 || MOST_WRITERS < writers || cells < writers || MOST_CELLS < cells {
            return Err(RingFault::BadSize);
        }
        if limit < writers || MOST_PLACES < limit {
            return Err(RingFault::BadLimit);
        }
        Ok(RingSize {
            cells,
            writers,
            limit,
        })
    }

    /// Tells whether fewer places than there are writers are left from this tail up to the limit.
    pub const fn is_spent(self, tail: u64) -> bool
        ensures { result ≡ is_spent self tail }
    {
        self.limit - self.writers < tail
    }

    /// Tells whether fewer cells than there are writers are free, with this front and this tail.
    pub const fn is_full(self, front: u64, tail: u64) -> bool
        requires { front ≤ tail }
        ensures { result ≡ is_full self front tail }
    {
        self.cells - self.writers < tail - front
    }
}
