ghost use Rattle.std.specs.Prelude.{IsTrue, ◌<◌, ◌↔◌};
ghost use Rattle.tmw_search.specs.Precedence.{Has, IsOrder, Narrows, Joins, Before};

use tmw_cuts::MOST_TRANSACTIONS;

/// A mask of transactions for each transaction of a window.
pub type Masks = [u8; MOST_TRANSACTIONS];

/// Tells whether the first comes before the second, or is it.
#[inline(always)]
pub fn has(reach: &Masks, i: usize, j: usize) -> bool
    requires first { i < 8 }
    requires second { j < 8 }
    ensures { IsTrue result ↔ Has reach.now i j }
{
    reach[j] >> i & 1 == 1
}

/// Adds these to the masks that have the place.
#[inline(always)]
pub fn join(reach: &mut Masks, place: usize, before: u8)
    requires within { place < 8 }
    requires order { IsOrder reach.now }
    ensures { Joins place before reach.old reach.new }
{
    for k in 0..8usize {
        let joined = reach[k] | before;
        reach[k] = if reach[k] >> place & 1 == 1 {
            joined
        } else {
            reach[k]
        };
    }
}

/// Puts the first before the second, and with it all that come before it, before all that come after the second.
/// Returns whether that can be.
#[inline(always)]
pub fn precede(reach: &mut Masks, i: usize, j: usize) -> bool
    requires first { i < 8 }
    requires second { j < 8 }
    requires order { IsOrder reach.now }
    ensures narrows { Narrows (Before i j) reach.old reach.new result }
    ensures has { IsTrue result → Has reach.new i j }
{
    if has(reach, i, j) {
        return true;
    }
    if has(reach, j, i) {
        return false;
    }
    let before = reach[i];
    join(reach, j, before);
    true
}
