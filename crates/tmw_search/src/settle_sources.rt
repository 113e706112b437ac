ghost use Rattle.std.specs.Prelude.{IsTrue, ◌<◌, ◌↔◌, ◌≡◌};
ghost use Rattle.tmw_search.specs.Precedence.{IsOrder, Narrows, IfClear, IfStuck, Passes, lives, Sourced, SettledSource, WithinSource, ChosenBy, Chosen, SettledBy, AllSettled, Within};

use crate::consequence::{Consequence, settle_read, settle_start};
use crate::precedence::Masks;
use crate::source_choices::{Choices, ReadSource};
use tmw_cuts::lowest;

/// What follows from the source of one read.
#[inline(always)]
pub fn settle_source(reach: &mut Masks, writers: u8, j: usize, source: ReadSource) -> Consequence
    requires second { j < 8 }
    requires within { WithinSource source }
    requires order { IsOrder reach.now }
    ensures { Passes (Sourced writers j source) (SettledSource writers j source)
        reach.old reach.new result }
{
    match source {
        ReadSource::Open => Consequence::Clear,
        ReadSource::Start => {
            if settle_start(reach, j, writers) {
                Consequence::Clear
            } else {
                Consequence::Never
            }
        }
        ReadSource::From(i) => settle_read(reach, i as usize, j, writers),
    }
}

/// What follows from the sources of one transaction's reads.
#[inline(always)]
fn settle_reads(reach: &mut Masks, choices: &Choices, j: usize) -> Consequence
    requires second { j < 8 }
    requires within { Within choices.now }
    requires order { IsOrder reach.now }
    ensures { Passes (ChosenBy choices.now j) (SettledBy choices.now j) reach.old reach.new result }
{
    let mut found = Consequence::Clear;
    let mut left = choices.reads[j];
    while left != 0 {
        let r = lowest(left);
        left -= 1 << r;
        match settle_source(reach, choices.writers[r], j, choices.sources[8 * j + r]) {
            Consequence::Never => return Consequence::Never,
            Consequence::Clear => {}
            Consequence::Stuck(a, b, k) => found = Consequence::Stuck(a, b, k),
        }
    }
    found
}

/// What follows from all sources, each taken once.
fn settle_once(reach: &mut Masks, choices: &Choices) -> Consequence
    requires within { Within choices.now }
    requires order { IsOrder reach.now }
    ensures { Passes (Chosen choices.now) (AllSettled choices.now) reach.old reach.new result }
{
    let mut found = Consequence::Clear;
    for j in 0..8usize {
        match settle_reads(reach, choices, j) {
            Consequence::Never => return Consequence::Never,
            Consequence::Clear => {}
            Consequence::Stuck(a, b, k) => found = Consequence::Stuck(a, b, k),
        }
    }
    found
}

/// Tells whether the same come before the same.
#[inline(always)]
fn is_same(one: &Masks, other: &Masks) -> bool
    ensures { IsTrue result ↔ one.now ≡ other.now }
{
    *one == *other
}

/// What follows from all sources.
pub fn settle(reach: &mut Masks, choices: &Choices) -> Consequence
    requires within { Within choices.now }
    requires order { IsOrder reach.now }
    ensures narrows { Narrows (Chosen choices.now) reach.old reach.new (lives result) }
    ensures clear { IfClear result (AllSettled choices.now reach.new) }
    ensures stuck { IfStuck result (Chosen choices.now) reach.new }
{
    let mut was = *reach;
    let mut found = settle_once(reach, choices);
    while found.is_alive() && !is_same(reach, &was) {
        was = *reach;
        found = settle_once(reach, choices);
    }
    found
}
