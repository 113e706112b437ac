ghost use Rattle.tmw_kept.specs.Shared.{transactions};
ghost use Rattle.std.specs.Prelude.{IfOk, position, slice_index_or, ◌≡◌};
ghost use Rattle.tmw_kept.specs.NameInWindow.{lies_in, name_in, names_of, owner, owner_in};

use crate::kept_events::{kept_of, places_of};
use crate::transaction::{Transaction, transactions};
use std::alloc::{AllocError, Global};
use tmw_events::Event;

/// What a transaction of what is kept is in the window.
#[derive(Clone, Copy)]
pub struct Name {
    /// The place of the first of its events that is kept.
    pub first: usize,
    /// Its place among the window's transactions.
    pub transaction: usize,
}

/// Whether the transaction is the thread's, and the events from the one place up to the other lie in it.
fn lies_in(transaction: &Transaction, thread: u8, from: usize, upto: usize) -> bool
    ensures { result ≡ lies_in thread from upto transaction.now }
{
    transaction.thread.get() == thread && transaction.first <= from && upto <= transaction.last
}

/// The number of the thread's transaction in which these events lie, if they lie in one.
fn find_owner(whole: &[Transaction], thread: u8, from: usize, upto: usize) -> Option<usize>
    ensures { result ≡ position (lies_in thread from upto) whole.now }
{
    whole
        .iter()
        .position(|one| lies_in(one, thread, from, upto))
}

/// The number of the thread's transaction in which these events lie, or how many there are.
pub fn owner(whole: &[Transaction], thread: u8, from: usize, upto: usize) -> usize
    ensures { result ≡ owner whole.now thread from upto }
{
    find_owner(whole, thread, from, upto).unwrap_or(whole.len())
}

/// The number at the place, or 0 if there is none.
fn number_at(numbers: &[usize], place: usize) -> usize
    ensures { result ≡ slice_index_or numbers.now place 0 }
{
    numbers.get(place).copied().unwrap_or(0)
}

/// What the transaction, whose events have these places in the window, is there.
fn name_in(places: &[usize], window: &[Transaction], transaction: &Transaction) -> Name
    ensures { result ≡ name_in places.now window.now transaction.now }
{
    let first = number_at(places, transaction.first);
    let last = number_at(places, transaction.last);
    let transaction = owner(window, transaction.thread.get(), first, last);
    Name { first, transaction }
}

/// The place among those of the window of the transaction in which the events of this one lie, which have these places.
pub fn owner_in(places: &[usize], window: &[Transaction], one: &Transaction) -> usize
    ensures { result ≡ owner_in places.now window.now one.now }
{
    name_in(places, window, one).transaction
}

/// Returns what each transaction of what is kept is in the window.
pub fn names_of(alloc: Global, marks: &[bool], events: &[Event]) -> Result<Vec<Name>, AllocError>
    ensures { IfOk result (λ names. names.items ≡ names_of marks.now events.now) }
{
    let places = places_of(alloc, marks)?;
    let window = transactions(alloc, events)?;
    let part = transactions(alloc, &kept_of(alloc, marks, events)?)?;
    part.iter()
        .map(|one| name_in(&places, &window, one))
        .collect(alloc)
}
