//! Where the search begins: what is known of all orders.
ghost use Rattle.tmw_search.specs.Shared.{State, view};
ghost use Rattle.std.specs.Prelude.{IsTrue, get_or, length, map, ℕ, ◌<◌, ◌↔◌, ◌≡◌, ◌≤◌};
ghost use Rattle.tmw_search.specs.declared.source_choices.ReadSource.TheVariants.{Open};
ghost use Rattle.tmw_search.specs.NodeOrders.{In, effects, IsNode};
ghost use Rattle.tmw_search.specs.Precedence.{IsOrder};
ghost use Rattle.tmw_search.specs.LegalOrders.{members_of, Agree, Begins, IsRow, IsRoot, AreRising, ShowReads, ShowWriters, orderly, HaveEight, ShowsStatus};

use crate::effects::{agrees, needed_at, written_at};
use crate::node::Node;
use crate::precedence::Masks;
use crate::search::add_writer;
use crate::source_choices::{Choices, ReadSource};
use tmw_cuts::{MOST_TRANSACTIONS, State, Txn, lowest};
use tmw_defs::{Criterion, Status};
use tmw_events::MOST_REGISTERS;

/// The transactions that have committed, and those that are commit-pending, as masks.
#[derive(Clone, Copy)]
pub struct Statuses {
    pub committed: u8,
    pub pending: u8,
}

/// Does nothing: its clause tells a caller's proof what the type says.
#[inline(always)]
fn tell_eight(values: &State)
    ensures { length values.now ≡ 8 }
{
    let _values = *values;
}

/// Returns which of the transactions have committed, and which are commit-pending.
pub fn statuses_of(items: &[Txn]) -> Statuses
    requires { length items.now ≤ 8 }
    ensures shows { ShowsStatus (map view items.now) result.committed result.pending }
    ensures eight { HaveEight items.now }
{
    let mut committed = 0u8;
    let mut pending = 0u8;
    for (place, item) in items.iter().enumerate() {
        tell_eight(&item.effect().needs);
        tell_eight(&item.effect().leaves);
        match item.status {
            Status::Committed => committed |= 1 << place,
            Status::Pending => pending |= 1 << place,
            Status::Live => {}
            Status::Aborted => {}
        }
    }
    Statuses { committed, pending }
}

/// Returns the transaction and those of the mask that precede it, or it alone if the mask has not got it.
#[inline(always)]
fn row_of(mask: u8, before: u8, place: usize) -> u8
    requires { place < 8 }
    ensures { IsRow mask before place result }
{
    if mask >> place & 1 == 1 {
        before & mask | 1 << place
    } else {
        1 << place
    }
}

/// Returns, for each transaction of the mask, it and those of the mask that precede it. One that began later has all
/// before it that one that began earlier has, so that this is an order even where nothing is known of the masks.
pub fn order_of(items: &[Txn], mask: u8) -> Masks
    requires { length items.now ≤ 8 }
    ensures order { IsOrder result }
    ensures shows { AreRising (map view items.now) → Begins mask (map view items.now) result }
{
    let mut reach = [1, 2, 4, 8, 16, 32, 64, 128];
    let mut before = 0u8;
    for (place, item) in items.iter().enumerate() {
        before |= item.before & ((1 << place) - 1);
        reach[place] = row_of(mask, before, place);
    }
    reach
}

/// Tells whether each transaction of the mask agrees with itself.
pub fn all_agree(items: &[Txn], mask: u8) -> bool
    ensures { IsTrue result ↔ Agree (effects items.now) mask }
{
    let mut left = mask;
    while left != 0 {
        let place = lowest(left);
        left -= 1 << place;
        if !agrees(items, place) {
            return false;
        }
    }
    true
}

/// Returns the registers that each transaction of the mask needs, as masks.
fn reads_of(items: &[Txn], mask: u8) -> Masks
    ensures { ShowReads (effects items.now) mask result }
{
    let mut reads = [0; MOST_TRANSACTIONS];
    let mut left = mask;
    while left != 0 {
        let place = lowest(left);
        left -= 1 << place;
        reads[place] = needed_at(items, place);
    }
    reads
}

/// Returns which transactions of the mask write each register, as masks.
pub fn writers_of(items: &[Txn], mask: u8) -> [u8; MOST_REGISTERS]
    ensures { ShowWriters (effects items.now) mask result }
{
    let mut writers = [0; MOST_REGISTERS];
    let mut left = mask;
    while left != 0 {
        let place = lowest(left);
        left -= 1 << place;
        add_writer(&mut writers, written_at(items, place), place);
    }
    writers
}

/// Returns the transactions that are in each serial order of the criterion, as a mask.
fn members_of(criterion: Criterion, items: &[Txn], held: u8) -> u8
    requires { length items.now ≤ 8 }
    ensures { result ≡ members_of criterion (length items.now) held }
{
    match criterion {
        Criterion::Opacity => ((1u16 << items.len()) - 1) as u8,
        Criterion::Strict => held,
    }
}

/// Returns the transactions that may be in a serial order of the criterion, as a mask.
pub fn orderly(criterion: Criterion, statuses: &Statuses) -> u8
    ensures { result ≡ orderly criterion statuses.now.committed statuses.now.pending }
{
    match criterion {
        Criterion::Opacity => 255,
        Criterion::Strict => statuses.committed | statuses.pending,
    }
}

/// Returns that no source is chosen.
#[inline(always)]
fn none_chosen() -> [ReadSource; 64]
    ensures { (k : ℕ) → k < 64 → get_or result k Open ≡ Open }
{
    let sources = [ReadSource::Open; 64];
    sources
}

/// Returns what is known of all serial orders of a completion that holds these: who precedes whom. No source is chosen.
pub fn root_of(criterion: Criterion, items: &[Txn], reach: &Masks, held: u8) -> Node
    requires few { length items.now ≤ 8 }
    requires order { IsOrder reach.now }
    requires within { (i : ℕ) → In held i → i < length items.now }
    ensures root { IsRoot criterion (effects items.now) (length items.now) reach.now held result }
    ensures node { Agree (effects items.now) result.members → (start : State) (may : ℕ)
        → IsNode (effects items.now) start may result }
{
    let members = members_of(criterion, items, held);
    let sources = none_chosen();
    Node {
        reach: *reach,
        held,
        members,
        choices: Choices {
            reads: reads_of(items, members),
            writers: writers_of(items, held),
            sources,
        },
    }
}
