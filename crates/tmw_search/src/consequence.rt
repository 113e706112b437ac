ghost use Rattle.tmw_search.specs.Shared.{bit_at};
ghost use Rattle.std.specs.Prelude.{IsTrue, ℕ, ◌<◌, ◌≡◌};
ghost use Rattle.tmw_search.specs.Precedence.{Has, IsOrder, Narrows, Out, IsSource, FromStart, IsOut, IsSettled, IfClear, IfStuck, Passes, lives};

use crate::precedence::{Masks, has, precede};
use tmw_cuts::lowest;

/// What follows from the sources: that there is no order, that all of them are so, or that one may still be on either
/// side of two.
#[derive(Clone, Copy, Drop)]
pub enum Consequence {
    Never,
    Clear,
    Stuck(usize, usize, usize),
}

impl Consequence {
    /// Tells whether there may be an order.
    #[inline(always)]
    pub fn is_alive(self) -> bool
        ensures { result ≡ lives self }
    {
        match self {
            Consequence::Never => false,
            Consequence::Clear | Consequence::Stuck(..) => true,
        }
    }
}

/// Keeps one from between the other two.
#[inline(always)]
fn keep_out(reach: &mut Masks, k: usize, i: usize, j: usize) -> Consequence
    requires first { i < 8 }
    requires second { j < 8 }
    requires third { k < 8 }
    requires order { IsOrder reach.now }
    ensures narrows { Narrows (Out k i j) reach.old reach.new (lives result) }
    ensures clear { IfClear result (IsOut reach.new k i j) }
    ensures stuck { IfStuck result (Out k i j) reach.old }
{
    if has(reach, k, i) || has(reach, j, k) {
        return Consequence::Clear;
    }
    if has(reach, k, j) {
        return if precede(reach, k, i) {
            Consequence::Clear
        } else {
            Consequence::Never
        };
    }
    if has(reach, i, k) {
        return if precede(reach, j, k) {
            Consequence::Clear
        } else {
            Consequence::Never
        };
    }
    Consequence::Stuck(i, j, k)
}

/// Keeps the others of these from between the source and its read.
pub fn settle_read(reach: &mut Masks, i: usize, j: usize, writers: u8) -> Consequence
    requires first { i < 8 }
    requires second { j < 8 }
    requires order { IsOrder reach.now }
    ensures { Passes (IsSource writers i j) (IsSettled writers i j) reach.old reach.new result }
{
    if has(reach, j, i) || !precede(reach, i, j) {
        return Consequence::Never;
    }
    let mut found = Consequence::Clear;
    let mut left = writers;
    while left != 0 {
        let k = lowest(left);
        left -= 1 << k;
        match keep_out(reach, k, i, j) {
            Consequence::Never => return Consequence::Never,
            Consequence::Clear => {}
            Consequence::Stuck(a, b, k) => found = Consequence::Stuck(a, b, k),
        }
    }
    found
}

/// Puts the read before all of these.
pub fn settle_start(reach: &mut Masks, j: usize, others: u8) -> bool
    requires within { j < 8 }
    requires order { IsOrder reach.now }
    ensures narrows { Narrows (FromStart others j) reach.old reach.new result }
    ensures clear { IsTrue result → (k : ℕ) → k < 8 → bit_at others k ≡ 1 → Has reach.new j k }
{
    let mut left = others;
    while left != 0 {
        let k = lowest(left);
        left -= 1 << k;
        if !precede(reach, j, k) {
            return false;
        }
    }
    true
}
