//! What follows at once from each read, before the search branches.
ghost use Rattle.std.specs.Prelude.{IsTrue, MatchOption, ℕ, ◌<◌, ◌≡◌};
ghost use Rattle.tmw_search.specs.Precedence.{IsRead, source_at};
ghost use Rattle.tmw_search.specs.declared.source_choices.ReadSource.{ReadSource};
ghost use Rattle.tmw_search.specs.declared.source_choices.ReadSource.TheVariants.{Open};
ghost use Rattle.tmw_search.specs.NodeOrders.{effects, need_at, In, IsNode, IsBranch, AllOpen, Entails, IsOnly, LeavesOut, NoneMay, TakesIn};

use crate::consequence::Consequence;
use crate::effects::{need_at, written_at};
use crate::node::{Branch, Node};
use crate::search::{branch_of, give};
use crate::settle_sources::settle_source;
use crate::source_choices::ReadSource;
use tmw_cuts::{State, Txn, lowest};

/// Looks no more at a read that is settled.
#[inline(always)]
fn leave_out(node: &mut Node, j: usize, r: usize)
    requires reader { j < 8 }
    requires register { r < 8 }
    ensures { LeavesOut j r node.old node.new }
{
    node.choices.reads[j] &= !(1 << r);
}

/// Returns the source of the read if the branch offers just one.
#[inline(always)]
fn only_source(branch: &Branch) -> Option<ReadSource>
    ensures { MatchOption result ((source : ReadSource) → IsOnly branch.now source → ⊥)
        (λ source. IsOnly branch.now source) }
{
    if branch.writers == 0 {
        return if branch.start {
            Some(ReadSource::Start)
        } else {
            None
        };
    }
    let i = lowest(branch.writers);
    if branch.start || branch.writers != 1 << i {
        return None;
    }
    Some(ReadSource::From(i as u8))
}

/// Gives the read its only source. If that settles it, and `free` says that no pending transaction may write the
/// register, it is looked at no more. Returns whether there may be an order.
fn give_only(
    items: &[Txn],
    start: &State,
    may: u8,
    node: &mut Node,
    branch: &Branch,
    source: ReadSource,
    free: bool,
) -> bool
    requires node { IsNode (effects items.now) start.now may node.now }
    requires branch { IsBranch (effects items.now) start.now may node.now branch.now }
    requires only { IsOnly branch.now source }
    requires free { IsTrue free → NoneMay (effects items.now) may branch.now.register }
    ensures { TakesIn (effects items.now) start.now may branch.now.reader branch.now.register
        node.old node.new result }
{
    let j = branch.reader;
    let r = branch.register;
    give(items, start, may, node, j, r, source);
    match settle_source(&mut node.reach, node.choices.writers[r], j, source) {
        Consequence::Never => return false,
        Consequence::Clear => {
            if free {
                leave_out(node, j, r);
            }
        }
        Consequence::Stuck(..) => {}
    }
    true
}

/// Takes in what follows from a read whose source is not chosen, where `free` says that no pending transaction may
/// write the register. Returns whether there may be an order.
fn read_one(
    items: &[Txn],
    start: &State,
    may: u8,
    node: &mut Node,
    j: usize,
    r: usize,
    free: bool,
) -> bool
    requires reader { j < 8 }
    requires register { r < 8 }
    requires read { IsRead node.now.choices j r }
    requires open { source_at node.now.choices j r ≡ Open }
    requires node { IsNode (effects items.now) start.now may node.now }
    requires free { IsTrue free → NoneMay (effects items.now) may r }
    ensures { TakesIn (effects items.now) start.now may j r node.old node.new result }
{
    if free && node.choices.writers[r] & !(1 << j) == 0 {
        leave_out(node, j, r);
        return start[r] == need_at(items, j, r);
    }
    let branch = branch_of(items, start, may, node, j, r);
    if branch.writers == 0 && !branch.start {
        return false;
    }
    match only_source(&branch) {
        Some(source) => give_only(items, start, may, node, &branch, source, free),
        None => true,
    }
}

/// Returns the registers that those of the mask write, as a mask.
pub fn written_by(items: &[Txn], mask: u8) -> u8
    ensures { (r : ℕ) → r < 8 → (In result r → ⊥) → NoneMay (effects items.now) mask r }
{
    let mut written = 0u8;
    let mut left = mask;
    while left != 0 {
        let i = lowest(left);
        left -= 1 << i;
        written |= written_at(items, i);
    }
    written
}

/// Takes in what follows from the reads of one transaction, those of the mask. `written` has the registers that pending
/// transactions may write. Returns whether there may be an order.
fn read_by(
    items: &[Txn],
    start: &State,
    may: u8,
    written: u8,
    node: &mut Node,
    j: usize,
    reads: u8,
) -> bool
    requires reader { j < 8 }
    requires node { IsNode (effects items.now) start.now may node.now }
    requires written { (r : ℕ) → r < 8 → (In written r → ⊥) → NoneMay (effects items.now) may r }
    requires waits { (q : ℕ) → q < 8 → In reads q
        → IsRead node.now.choices j q × (source_at node.now.choices j q ≡ Open) }
    ensures follows { Entails (effects items.now) start.now may node.old node.new result }
    ensures others { IsTrue result → (a q : ℕ) → a < 8 → q < 8 → (a ≡ j → ⊥) → IsRead node.old.choices a q
        → IsRead node.new.choices a q
        × (source_at node.new.choices a q ≡ source_at node.old.choices a q) }
{
    let mut left = reads;
    while left != 0 {
        let r = lowest(left);
        left -= 1 << r;
        if !read_one(items, start, may, node, j, r, written >> r & 1 == 0) {
            return false;
        }
    }
    true
}

/// Takes in what follows from all reads of a node of which no source is chosen. `written` has the registers that pending
/// transactions may write. Returns whether there may be an order.
pub fn read_all(items: &[Txn], start: &State, may: u8, written: u8, node: &mut Node) -> bool
    requires node { IsNode (effects items.now) start.now may node.now }
    requires written { (r : ℕ) → r < 8 → (In written r → ⊥) → NoneMay (effects items.now) may r }
    requires waits { AllOpen node.now.choices.reads node.now }
    ensures { Entails (effects items.now) start.now may node.old node.new result }
{
    let reads = node.choices.reads;
    for j in 0..8usize {
        if !read_by(items, start, may, written, node, j, reads[j]) {
            return false;
        }
    }
    true
}
