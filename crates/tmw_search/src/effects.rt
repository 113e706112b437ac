//! What a transaction needs of the registers and leaves there, by its place.
ghost use Rattle.std.specs.Prelude.{get_or, ◌<◌, ◌≡◌};
ghost use Rattle.tmw_search.specs.NodeOrders.{effects, idle, need_at, left_at};

use tmw_cuts::Txn;

/// Returns the registers that the transaction needs, as a mask.
#[inline(always)]
pub fn needed_at(items: &[Txn], i: usize) -> u8
    ensures { result ≡ (get_or (effects items.now) i idle).needed }
{
    match items.get(i) {
        Some(item) => item.effect().needed,
        None => 0,
    }
}

/// Returns the registers that the transaction leaves a value in, as a mask.
#[inline(always)]
pub fn written_at(items: &[Txn], i: usize) -> u8
    ensures { result ≡ (get_or (effects items.now) i idle).left }
{
    match items.get(i) {
        Some(item) => item.effect().left,
        None => 0,
    }
}

/// Returns the value that the transaction needs in the register.
#[inline(always)]
pub fn need_at(items: &[Txn], i: usize, r: usize) -> u64
    requires { r < 8 }
    ensures { result ≡ need_at (effects items.now) i r }
{
    match items.get(i) {
        Some(item) => item.effect().needs[r],
        None => 0,
    }
}

/// Returns the value that the transaction leaves in the register.
#[inline(always)]
pub fn left_at(items: &[Txn], i: usize, r: usize) -> u64
    requires { r < 8 }
    ensures { result ≡ left_at (effects items.now) i r }
{
    match items.get(i) {
        Some(item) => item.effect().leaves[r],
        None => 0,
    }
}

/// Tells whether each later answer of the transaction is what its earlier operations tell of the register.
#[inline(always)]
pub fn agrees(items: &[Txn], i: usize) -> bool
    ensures { result ≡ (get_or (effects items.now) i idle).agrees }
{
    match items.get(i) {
        Some(item) => item.effect().agrees,
        None => false,
    }
}
