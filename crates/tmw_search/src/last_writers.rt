//! The ends of a node's orders: one register after another, one of its writers is taken for the last.
ghost use Rattle.tmw_search.specs.Shared.{State, members};
ghost use Rattle.std.specs.Prelude.{IfNone, IfSome, MatchOption, IsFalse, IsTrue, length, slice_index, ℕ, ◌<◌, ◌↔◌, ◌≡◌};
ghost use Rattle.tmw_search.specs.Precedence.{IsRead, Within, IsOrder, Narrows};
ghost use Rattle.tmw_search.specs.LastWriters.{ComeBefore, ComesBehind, IsEndOf, EndWith, IsPutLast, LeftByOne, Adds};
ghost use Rattle.tmw_search.specs.NodeOrders.{In, effects, left_at, ordered, IsNode};

use crate::effects::left_at;
use crate::end_set::EndSet;
use crate::node::Node;
use crate::precedence::{Masks, join};
use crate::search::any;
use crate::settle_sources::settle;
use crate::source_choices::Choices;
use tmw_cuts::{MOST_TRANSACTIONS, State, Txn, lowest};

/// Returns those that come before another of these, as a mask.
fn before_of(reach: &Masks, these: u8) -> u8
    ensures comes { ComeBefore reach.now these result }
    ensures fits { these < 256 }
{
    let mut before = 0u8;
    // Each place is asked, since no processor foresees which they are.
    for place in 0..8usize {
        let others = reach[place] & !(1 << place);
        before |= if these >> place & 1 == 1 { others } else { 0 };
    }
    before
}

/// Tells whether no read is looked at, so that each order is legal.
#[inline(always)]
pub fn is_plain(choices: &Choices) -> bool
    ensures { IsTrue result → (j r : ℕ) → IsRead choices.now j r → ⊥ }
{
    choices.reads == [0; MOST_TRANSACTIONS]
}

/// Has the transaction come last of the writers, where those of `before` come before another of them. Returns whether
/// there may be an order.
#[inline(always)]
fn put_last(choices: &Choices, reach: &mut Masks, i: usize, writers: u8, before: u8) -> bool
    requires within { i < 8 }
    requires order { IsOrder reach.now }
    requires sources { Within choices.now }
    requires comes { ComeBefore reach.now writers before }
    requires writes { In writers i }
    requires free { In before i → ⊥ }
    ensures narrows { Narrows (IsPutLast choices.now writers i) reach.old reach.new result }
    ensures last { IsTrue result → ComesBehind reach.new writers i }
{
    join(reach, i, writers | before);
    is_plain(choices) || settle(reach, choices).is_alive()
}

/// A transaction, and the value that it leaves in a register.
#[derive(Clone, Copy)]
struct LastWriter {
    place: usize,
    value: u64,
}

/// Returns one of the mask that leaves the least in the register.
#[inline(always)]
fn least(items: &[Txn], register: usize, mask: u8) -> LastWriter
    requires register { register < 8 }
    requires some { 0 < mask }
    ensures within { result.place < 8 }
    ensures among { In mask result.place }
    ensures value { result.value ≡ left_at (effects items.now) result.place register }
{
    let first = lowest(mask);
    let mut least = LastWriter {
        place: first,
        value: left_at(items, first, register),
    };
    let mut left = mask - (1 << first);
    while left != 0 {
        let place = lowest(left);
        left -= 1 << place;
        let value = left_at(items, place, register);
        if value < least.value {
            least = LastWriter { place, value };
        }
    }
    least
}

/// Makes of the state a number, which differs for most.
fn mixed(state: &State) -> u64 {
    let mut sum = 0u64;
    for value in state {
        sum = sum.wrapping_mul(3).wrapping_add(*value);
    }
    sum
}

/// Adds the states with what one of the mask leaves in the register, and else what this one holds. Returns whether all
/// were added: they are not too many.
fn add_each(items: &[Txn], register: usize, mask: u8, end: &State, found: &mut EndSet) -> bool
    requires { register < 8 }
    ensures adds { Adds result (members found.old.ends) (members found.new.ends)
        (LeftByOne (effects items.now) register mask end.now) }
    ensures cap { found.new.cap ≡ found.old.cap }
    ensures more { IsFalse result → found.old.cap < length (members found.new.ends) }
{
    let number = mixed(end);
    let mut chosen = *end;
    let mut left = mask;
    while left != 0 {
        let writer = least(items, register, left);
        left -= 1 << writer.place;
        chosen[register] = writer.value;
        if !found.add(&chosen, number ^ writer.value.wrapping_mul(8)) {
            return false;
        }
    }
    true
}

/// Adds the state, if the node has a legal order with these coming before one another. Returns whether it was added:
/// they are not too many.
fn add_end(
    items: &[Txn],
    start: &State,
    node: &Node,
    reach: &Masks,
    end: &State,
    found: &mut EndSet,
) -> bool
    requires node { IsNode (effects items.now) start.now 0 (ordered node.now reach.now) }
    ensures adds { Adds result (members found.old.ends) (members found.new.ends)
        (IsEndOf (effects items.now) start.now (ordered node.now reach.now) 0 end.now) }
    ensures cap { found.new.cap ≡ found.old.cap }
    ensures more { IsFalse result → found.old.cap < length (members found.new.ends) }
{
    if is_plain(&node.choices) {
        return found.add(end, 0);
    }
    let mut next = *node;
    next.reach = *reach;
    match any(items, start, 0, &next) {
        Some(_) => found.add(end, 0),
        None => true,
    }
}

/// Returns one of the writers that each of them comes before, or is, if there is one.
#[inline(always)]
fn last_of(reach: &Masks, writers: u8) -> Option<usize>
    ensures { MatchOption result ((i : ℕ) → i < 8 → In writers i → ComesBehind reach.now writers i → ⊥)
        (λ i. (i < 8) × In writers i × ComesBehind reach.now writers i) }
{
    let mut left = writers;
    while left != 0 {
        let place = lowest(left);
        left -= 1 << place;
        if writers & !reach[place] == 0 {
            return Some(place);
        }
    }
    None
}

/// Returns what the register ends with in each legal order, if that is known: where it has no writer, what it held.
#[inline(always)]
fn known_end(items: &[Txn], node: &Node, register: usize, held: u64) -> Option<u64>
    requires { register < 8 }
    ensures some { IfSome result (λ value. EndWith (effects items.now) node.now register held value) }
    ensures none { IfNone result (slice_index node.now.choices.writers register ≡ 0 → ⊥) }
{
    let writers = node.choices.writers[register];
    if writers == 0 {
        return Some(held);
    }
    match last_of(&node.reach, writers) {
        Some(place) => Some(left_at(items, place, register)),
        None => None,
    }
}

/// Puts into the state what each register ends with of which that is known. Returns the other registers, as a mask.
pub fn put_known(items: &[Txn], node: &Node, end: &mut State) -> u8
    ensures ends { (start : State) → IsNode (effects items.now) start 0 node.now → (e : State)
        → IsEndOf (effects items.now) start node.now 255 end.old e
        ↔ IsEndOf (effects items.now) start node.now result end.new e }
    ensures written { (r : ℕ) → r < 8 → In result r
        → slice_index node.now.choices.writers r ≡ 0 → ⊥ }
{
    let mut registers = 255u8;
    for r in 0..8usize {
        match known_end(items, node, r, end[r]) {
            Some(value) => {
                end[r] = value;
                registers -= 1 << r;
            }
            None => {}
        }
    }
    registers
}

/// Adds the ends of the node's legal orders with these coming before one another, in which each register that is not
/// of the mask holds what the state does. Each writer that comes before no other is taken for the last. Returns whether
/// all were added: they are not too many.
pub fn add_last(
    items: &[Txn],
    start: &State,
    node: &Node,
    reach: &Masks,
    registers: u8,
    end: &State,
    found: &mut EndSet,
) -> bool
    requires node { IsNode (effects items.now) start.now 0 (ordered node.now reach.now) }
    requires written { (r : ℕ) → r < 8 → In registers r
        → slice_index node.now.choices.writers r ≡ 0 → ⊥ }
    ensures adds { Adds result (members found.old.ends) (members found.new.ends)
        (IsEndOf (effects items.now) start.now (ordered node.now reach.now) registers end.now) }
    ensures cap { found.new.cap ≡ found.old.cap }
    ensures more { IsFalse result → found.old.cap < length (members found.new.ends) }
{
    if registers == 0 {
        return add_end(items, start, node, reach, end, found);
    }
    let register = lowest(registers);
    let rest = registers - (1 << register);
    let writers = node.choices.writers[register];
    let before = before_of(reach, writers);
    let mut left = writers & !before;
    if rest == 0 && is_plain(&node.choices) {
        return add_each(items, register, left, end, found);
    }
    let mut chosen = *end;
    while left != 0 {
        let writer = least(items, register, left);
        left -= 1 << writer.place;
        chosen[register] = writer.value;
        let mut next = *reach;
        if put_last(&node.choices, &mut next, writer.place, writers, before) {
            if !add_last(items, start, node, &next, rest, &chosen, found) {
                return false;
            }
        }
    }
    true
}
