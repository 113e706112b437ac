//! The ends of a window's transactions, by each completion and from each start.
ghost use Rattle.tmw_search.specs.Shared.{State, members, room_of};
ghost use Rattle.std.specs.Prelude.{IsFalse, IsTrue, length, slice_index, ℕ, ◌<◌, ◌≡◌, ◌≤◌};
ghost use Rattle.tmw_search.specs.Precedence.{IsRead, IsOrder};
ghost use Rattle.tmw_search.specs.LastWriters.{AreEndsFrom, EndsByReading, EndsFromAll, EndsByMore, Adds};
ghost use Rattle.tmw_search.specs.EndStates.{told};
ghost use Rattle.tmw_search.specs.NodeOrders.{In, effects, IsNode, AllOpen, Entails};
ghost use Rattle.tmw_search.specs.LegalOrders.{ReadsAll};

use crate::end_set::EndSet;
use crate::last_writers::{add_last, is_plain, put_known};
use crate::node::Node;
use crate::precedence::Masks;
use crate::read_consequences::read_all;
use crate::root::{all_agree, order_of, orderly, root_of, statuses_of};
use crate::settle_sources::settle;
use crate::source_choices::Choices;
use crate::states_differ::differ;
use tmw_cuts::{State, Txn, lowest};
use tmw_defs::Criterion;
use tmw_events::MOST_REGISTERS;

/// Takes in what follows from all reads of a node of which no source is chosen. Returns whether there may be an order.
fn read_settled(items: &[Txn], start: &State, node: &mut Node) -> bool
    requires node { IsNode (effects items.now) start.now 0 node.now }
    requires waits { AllOpen node.now.choices.reads node.now }
    ensures { Entails (effects items.now) start.now 0 node.old node.new result }
{
    if !read_all(items, start, 0, 0, node) {
        return false;
    }
    is_plain(&node.choices) || settle(&mut node.reach, &node.choices).is_alive()
}

/// What follows from the reads from one start, and whether there may be an order.
#[derive(Clone, Copy, Drop)]
pub struct Reading {
    pub start: State,
    pub node: Node,
    pub alive: bool,
}

/// Returns what follows from all reads of the root from this start.
fn reading_of(items: &[Txn], start: &State, root: &Node) -> Reading
    requires node { IsNode (effects items.now) start.now 0 root.now }
    requires waits { AllOpen root.now.choices.reads root.now }
    ensures follows { Entails (effects items.now) result.start 0 root.now result.node result.alive }
    ensures start { result.start ≡ start.now }
{
    let mut node = *root;
    let alive = read_settled(items, start, &mut node);
    Reading {
        start: *start,
        node,
        alive,
    }
}

/// Makes a new reading, from this start, if the reading's start differs from it in a register that is read.
fn read_from(items: &[Txn], start: &State, root: &Node, needed: u8, reading: &mut Reading)
    requires node { IsNode (effects items.now) start.now 0 root.now }
    requires waits { AllOpen root.now.choices.reads root.now }
    requires follows { Entails (effects items.now) reading.now.start 0 root.now
        reading.now.node reading.now.alive }
    ensures follows { Entails (effects items.now) reading.new.start 0 root.now
        reading.new.node reading.new.alive }
    ensures agree { (r : ℕ) → r < 8 → In needed r
        → slice_index reading.new.start r ≡ slice_index start.now r }
{
    if differ(&reading.start, start, needed) {
        *reading = reading_of(items, start, root);
    }
}

/// Adds the ends of the reading's orders, where the registers that none writes hold what this start does. Returns whether
/// all were added: they are not too many.
fn add_from(items: &[Txn], start: &State, reading: &Reading, found: &mut EndSet) -> bool
    requires { IsTrue reading.now.alive → IsNode (effects items.now) reading.now.start 0 reading.now.node }
    ensures adds { Adds result (members found.old.ends) (members found.new.ends)
        (EndsByReading (effects items.now) reading.now start.now) }
    ensures cap { found.new.cap ≡ found.old.cap }
    ensures more { IsFalse result → found.old.cap < length (members found.new.ends) }
{
    if !reading.alive {
        return true;
    }
    let node = &reading.node;
    let mut end = *start;
    let registers = put_known(items, node, &mut end);
    add_last(
        items,
        &reading.start,
        node,
        &node.reach,
        registers,
        &end,
        found,
    )
}

/// Returns the registers that none writes, as a mask.
fn unwritten(writers: &[u8; MOST_REGISTERS]) -> u8
    ensures { (r : ℕ) → r < 8 → (In result r → ⊥)
        → (k : ℕ) × (k < 8) × In (slice_index writers.now r) k }
{
    let mut registers = 0u8;
    for r in 0..8usize {
        if writers[r] == 0 {
            registers |= 1 << r;
        }
    }
    registers
}

/// Returns the registers that some read needs, as a mask.
fn needed_registers(choices: &Choices) -> u8
    ensures { (j r : ℕ) → j < 8 → r < 8 → IsRead choices.now j r → In result r }
{
    let mut registers = 0u8;
    for j in 0..8usize {
        registers |= choices.reads[j];
    }
    registers
}

/// Adds the ends of the root's orders from each of the starts. One from which they end as from the one before it is
/// left out. Returns whether all were added: they are not too many.
fn add_all(items: &[Txn], starts: &[State], root: &Node, found: &mut EndSet) -> bool
    requires node { (start : State) → IsNode (effects items.now) start 0 root.now }
    requires waits { AllOpen root.now.choices.reads root.now }
    requires reads { ReadsAll (effects items.now) root.now }
    ensures adds { Adds result (members found.old.ends) (members found.new.ends)
        (EndsFromAll (effects items.now) starts.now root.now) }
    ensures cap { found.new.cap ≡ found.old.cap }
    ensures more { IsFalse result → found.old.cap < length (members found.new.ends) }
{
    if starts.len() == 0 {
        return true;
    }
    let needed = needed_registers(&root.choices);
    let shown = needed | unwritten(&root.choices.writers);
    let mut reading = reading_of(items, &starts[0], root);
    for (index, start) in starts.iter().enumerate() {
        if index == 0 || differ(&starts[index - 1], start, shown) {
            read_from(items, start, root, needed, &mut reading);
            if !add_from(items, start, &reading, found) {
                return false;
            }
        }
    }
    true
}

/// Adds the ends where the completion holds these. Returns whether all were added: they are not too many.
fn add_held(
    criterion: Criterion,
    items: &[Txn],
    starts: &[State],
    reach: &Masks,
    held: u8,
    found: &mut EndSet,
) -> bool
    requires few { length items.now ≤ 8 }
    requires order { IsOrder reach.now }
    requires within { (i : ℕ) → In held i → i < length items.now }
    ensures adds { Adds result (members found.old.ends) (members found.new.ends)
        (EndsByMore criterion (effects items.now) (length items.now) starts.now reach.now held 0) }
    ensures cap { found.new.cap ≡ found.old.cap }
    ensures more { IsFalse result → found.old.cap < length (members found.new.ends) }
{
    let root = root_of(criterion, items, reach, held);
    if !all_agree(items, root.members) {
        return true;
    }
    add_all(items, starts, &root, found)
}

/// Adds the ends where the completion holds these, and some or none of those that are left. Returns whether all were
/// added: they are not too many.
pub fn add_completions(
    criterion: Criterion,
    items: &[Txn],
    starts: &[State],
    reach: &Masks,
    held: u8,
    left: u8,
    found: &mut EndSet,
) -> bool
    requires few { length items.now ≤ 8 }
    requires order { IsOrder reach.now }
    requires within { (i : ℕ) → In held i → i < length items.now }
    requires left { (i : ℕ) → In left i → i < length items.now }
    ensures adds { Adds result (members found.old.ends) (members found.new.ends)
        (EndsByMore criterion (effects items.now) (length items.now) starts.now reach.now held left) }
    ensures cap { found.new.cap ≡ found.old.cap }
    ensures more { IsFalse result → found.old.cap < length (members found.new.ends) }
{
    if left == 0 {
        return add_held(criterion, items, starts, reach, held, found);
    }
    let i = lowest(left);
    let rest = left - (1 << i);
    if !add_completions(criterion, items, starts, reach, held, rest, found) {
        return false;
    }
    add_completions(criterion, items, starts, reach, held | 1 << i, rest, found)
}

/// Finds the states in which the transactions may end, over all legal serial orders and completions, from one of the
/// starts. Returns whether they are at most `cap`: else more are found.
pub fn find_ends(
    criterion: Criterion,
    items: &[Txn],
    starts: &[State],
    cap: u8,
    found: &mut EndSet,
) -> bool
    requires few { length items.now ≤ 8 }
    requires room { cap < room_of found.old.ends }
    ensures ends { AreEndsFrom criterion items.now starts.now cap (told result found.new.ends) }
    ensures cap { found.new.cap ≡ cap }
{
    found.begin(cap);
    let statuses = statuses_of(items);
    let reach = order_of(items, orderly(criterion, &statuses));
    let held = statuses.committed;
    let left = statuses.pending;
    if !add_completions(criterion, items, starts, &reach, held, left, found) {
        return false;
    }
    // At a cap of 0 any end is too many, and no end is few of no state.
    if !found.are_few() {
        return false;
    }
    true
}
