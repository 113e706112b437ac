ghost use Rattle.std.specs.Prelude.{IsFalse, slice_index, ℕ, ◌<◌, ◌↔◌, ◌≡◌};
ghost use Rattle.tmw_search.specs.NodeOrders.{In};

use tmw_cuts::State;

/// Tells whether the states differ in a register of the mask.
pub fn differ(one: &State, other: &State, mask: u8) -> bool
    ensures { IsFalse result ↔ ((r : ℕ) → r < 8 → In mask r
        → slice_index one.now r ≡ slice_index other.now r) }
{
    let mut differ = false;
    // Each register is asked, since no processor foresees which one differs.
    for r in 0..8usize {
        differ |= (one[r] != other[r]) & (mask >> r & 1 == 1);
    }
    differ
}
