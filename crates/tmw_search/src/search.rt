ghost use Rattle.tmw_search.specs.Shared.{State};
ghost use Rattle.std.specs.Prelude.{IsTrue, MatchOption, None, get_or, slice_index, ℕ, ◌<◌, ◌↔◌, ◌≡◌, ◌⊎◌};
ghost use Rattle.tmw_search.specs.Precedence.{IsRead, WithinSource, source_at, opens, Has};
ghost use Rattle.tmw_search.specs.declared.source_choices.ReadSource.{ReadSource};
ghost use Rattle.tmw_search.specs.declared.source_choices.ReadSource.TheVariants.{From, Open};
ghost use Rattle.tmw_search.specs.NodeOrders.{effects, left_at, In, Holds, FromIs, idle, MayBe, IsNode, IsFound, HasNone, IsBranch, MayGive, Gives};

use crate::consequence::Consequence;
use crate::effects::{agrees, left_at, need_at, needed_at, written_at};
use crate::node::{Branch, Node};
use crate::precedence::{Masks, has, precede};
use crate::settle_sources::settle;
use crate::source_choices::{Choices, ReadSource};
use tmw_cuts::{State, Txn, lowest};
use tmw_events::MOST_REGISTERS;

/// Adds the transaction to those that write the registers of the mask.
pub fn add_writer(writers: &mut [u8; MOST_REGISTERS], left: u8, i: usize)
    requires { i < 8 }
    ensures { (r k : ℕ) → r < 8 → k < 8 → In (slice_index writers.new r) k ↔ (In (slice_index writers.old r) k ⊎ ((k ≡ i) × In left r)) }
{
    let mut left = left;
    while left != 0 {
        let r = lowest(left);
        left -= 1 << r;
        writers[r] |= 1 << i;
    }
}

/// Takes the transaction in as held, and so as one that is in the order.
fn hold(items: &[Txn], node: &mut Node, i: usize)
    requires { i < 8 }
    ensures { (start : State) (may : ℕ) → IsNode (effects items.now) start may node.old
        → In node.old.held i ⊎ (In may i × IsTrue (get_or (effects items.now) i idle).agrees)
        → Holds (effects items.now) start may (From i) node.old node.new }
{
    if node.held >> i & 1 == 1 {
        return;
    }
    node.held |= 1 << i;
    add_writer(&mut node.choices.writers, written_at(items, i), i);
    if node.members >> i & 1 == 0 {
        node.members |= 1 << i;
        node.choices.reads[i] = needed_at(items, i);
    }
}

/// Takes the source in as held, if it is a transaction.
fn hold_source(items: &[Txn], node: &mut Node, source: ReadSource)
    requires { WithinSource source }
    ensures { (start : State) (may : ℕ) → IsNode (effects items.now) start may node.old
        → ((i : ℕ) → FromIs source i
        → In node.old.held i ⊎ (In may i × IsTrue (get_or (effects items.now) i idle).agrees))
        → Holds (effects items.now) start may source node.old node.new }
{
    match source {
        ReadSource::Open => {}
        ReadSource::Start => {}
        ReadSource::From(i) => hold(items, node, i as usize),
    }
}

/// Gives the open read this source: a pending transaction is held from then on.
pub fn give(
    items: &[Txn],
    start: &State,
    may: u8,
    node: &mut Node,
    j: usize,
    r: usize,
    source: ReadSource,
)
    requires reader { j < 8 }
    requires register { r < 8 }
    requires read { IsRead node.now.choices j r }
    requires free { source_at node.now.choices j r ≡ Open }
    requires node { IsNode (effects items.now) start.now may node.now }
    requires may { MayGive (effects items.now) start.now may node.now j r source }
    ensures gives { Gives (effects items.now) start.now may node.old j r source node.new }
    ensures fewer { opens node.new.choices < opens node.old.choices }
{
    hold_source(items, node, source);
    node.choices.sources[8 * j + r] = source;
}

/// Tells whether the read may have its value from the transaction.
#[inline(always)]
fn may_give(items: &[Txn], node: &Node, i: usize, j: usize, r: usize) -> bool
    requires giver { i < 8 }
    requires reader { j < 8 }
    requires register { r < 8 }
    ensures { IsTrue result ↔ MayBe (effects items.now) node.now j r i }
{
    written_at(items, i) >> r & 1 == 1
        && left_at(items, i, r) == need_at(items, j, r)
        && agrees(items, i)
        && !has(&node.reach, j, i)
}

/// Tells whether one of the mask comes before the transaction.
#[inline(always)]
fn has_before(reach: &Masks, j: usize, mask: u8) -> bool
    requires { j < 8 }
    ensures { IsTrue result → (k : ℕ) × (k < 8) × In mask k × Has reach.now k j × (k ≡ j → ⊥) }
{
    reach[j] & mask & !(1 << j) != 0
}

/// The transactions from which an open read may have its value, and whether the start is one.
pub fn branch_of(items: &[Txn], start: &State, may: u8, node: &Node, j: usize, r: usize) -> Branch
    requires reader { j < 8 }
    requires register { r < 8 }
    requires read { IsRead node.now.choices j r }
    requires free { source_at node.now.choices j r ≡ Open }
    requires node { IsNode (effects items.now) start.now may node.now }
    ensures branch { IsBranch (effects items.now) start.now may node.now result }
    ensures reader { result.reader ≡ j }
    ensures register { result.register ≡ r }
{
    let mut writers = 0u8;
    let mut left = node.choices.writers[r] | may;
    while left != 0 {
        let i = lowest(left);
        left -= 1 << i;
        if may_give(items, node, i, j, r) {
            writers |= 1 << i;
        }
    }
    let start = start[r] == need_at(items, j, r)
        && !has_before(&node.reach, j, node.choices.writers[r]);
    Branch {
        reader: j,
        register: r,
        start,
        writers,
    }
}

/// Tells whether the source of the read is not chosen.
#[inline(always)]
fn is_open(choices: &Choices, j: usize, r: usize) -> bool
    requires reader { j < 8 }
    requires register { r < 8 }
    ensures { IsTrue result ↔ source_at choices.now j r ≡ Open }
{
    match choices.sources[8 * j + r] {
        ReadSource::Open => true,
        ReadSource::Start | ReadSource::From(_) => false,
    }
}

/// An open read with the fewest ways to choose its source.
fn pick(items: &[Txn], start: &State, may: u8, node: &Node) -> Option<Branch>
    requires node { IsNode (effects items.now) start.now may node.now }
    ensures { MatchOption result
        ((j r : ℕ) → j < 8 → r < 8 → IsRead node.now.choices j r → source_at node.now.choices j r ≡ Open → ⊥)
        (λ b. IsBranch (effects items.now) start.now may node.now b) }
{
    let mut best: Option<Branch> = None;
    let mut least = 0;
    for j in 0..8usize {
        let mut left = node.choices.reads[j];
        while left != 0 {
            let r = lowest(left);
            left -= 1 << r;
            if is_open(&node.choices, j, r) {
                let branch = branch_of(items, start, may, node, j, r);
                let ways = branch.writers.count_ones() + branch.start as u32;
                if best.is_none() || ways < least {
                    least = ways;
                    best = Some(branch);
                }
            }
        }
    }
    best
}

/// Looks for an order of the node.
pub fn any(items: &[Txn], start: &State, may: u8, node: &Node) -> Option<Node>
    requires node { IsNode (effects items.now) start.now may node.now }
    ensures { MatchOption result (HasNone (effects items.now) start.now may node.now)
        (λ found. IsFound (effects items.now) start.now may node.now found) }
{
    let mut next = *node;
    let settled = settle(&mut next.reach, &next.choices);
    if !settled.is_alive() {
        return None;
    }
    match pick(items, start, may, &next) {
        Some(branch) => {
            let j = branch.reader;
            let r = branch.register;
            if branch.start {
                let mut child = next;
                give(items, start, may, &mut child, j, r, ReadSource::Start);
                match any(items, start, may, &child) {
                    Some(found) => return Some(found),
                    None => {}
                }
            }
            let mut left = branch.writers;
            while left != 0 {
                let i = lowest(left);
                left -= 1 << i;
                let mut child = next;
                give(
                    items,
                    start,
                    may,
                    &mut child,
                    j,
                    r,
                    ReadSource::From(i as u8),
                );
                match any(items, start, may, &child) {
                    Some(found) => return Some(found),
                    None => {}
                }
            }
            None
        }
        None => match settled {
            Consequence::Stuck(i, j, k) => {
                let mut one = next;
                if precede(&mut one.reach, k, i) {
                    match any(items, start, may, &one) {
                        Some(found) => return Some(found),
                        None => {}
                    }
                }
                let mut other = next;
                if precede(&mut other.reach, j, k) {
                    any(items, start, may, &other)
                } else {
                    None
                }
            }
            Consequence::Clear => Some(next),
            Consequence::Never => None,
        },
    }
}
