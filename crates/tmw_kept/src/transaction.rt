ghost use Rattle.tmw_kept.specs.Shared.{add_event, is_ended, operations, precedes, status_of, transactions};
ghost use Rattle.std.specs.Prelude.{IfOk, OnOk, position, ◌≡◌};
ghost use Rattle.std.specs.Iterator.{YieldsFirst, item_count};
ghost use Rattle.tmw_defs.proofs.OneMore.{joins};
ghost use Rattle.tmw_kept.specs.NameInWindow.{txn_at};

use std::alloc::{AllocError, Global};
use std::marker::Model;
use tmw_cuts::{operation, status_after};
use tmw_defs::{Op, Status};
use tmw_events::{Event, Ix, Kind};

/// A transaction of a history: its thread, the places of its first and its last event, and its text.
#[derive(Drop)]
pub struct Transaction {
    pub thread: Ix,
    pub first: usize,
    pub last: usize,
    pub text: Vec<Kind>,
}

impl Model for Transaction {
    ghost use Rattle.tmw_defs.specs.History.{Txn};

    ghost Value = { Txn };

    ghost view = { λ t. record {
      thread = t.thread.number;
      first = t.first;
      last = t.last;
      text = t.text.items;
    } };
}

/// The answered operations of a transaction with this text, in order.
#[derive(Drop)]
pub struct TextOperations<'a>(pub &'a [Kind]);

impl Iterator for TextOperations<'_> {
    type Item = Op;

    ghost next_gives = { YieldsFirst (λ ops. operations ops.0.now) };

    ghost remaining = { item_count (λ ops. operations ops.0.now) };

    fn next(&mut self) -> Option<Op> {
        while let [call, answer, more @ ..] = self.0 {
            self.0 = more;
            if let Some(op) = operation(*call, *answer) {
                return Some(op);
            }
        }
        None
    }
}

/// Returns the status of a transaction with this text, by its last event.
pub fn status_of(text: &[Kind]) -> Status
    ensures { result ≡ status_of text.now }
{
    text.last().map_or(Status::Live, |kind| status_after(*kind))
}

/// Tells whether the transaction with this text has committed or aborted.
fn is_ended(text: &[Kind]) -> bool
    ensures { result ≡ is_ended text.now }
{
    matches!(status_of(text), Status::Committed | Status::Aborted)
}

/// Tells whether the one precedes the other in real time: it is completed, and its last event is before the other's
/// first.
pub fn precedes(one: &Transaction, other: &Transaction) -> bool
    ensures { result ≡ precedes one.now other.now }
{
    is_ended(&one.text) && one.last < other.first
}

/// The text of the transaction at this place.
pub fn text_at(transactions: &[Transaction], place: usize) -> &[Kind]
    ensures { result.now ≡ (txn_at transactions.now place).text }
{
    match transactions.get(place) {
        Some(transaction) => &transaction.text,
        None => &[],
    }
}

/// Whether the one transaction precedes the other in real time, by their places.
pub fn precedes_at(transactions: &[Transaction], one: usize, other: usize) -> bool
    ensures { let ts = transactions.now in
        result ≡ precedes (txn_at ts one) (txn_at ts other) }
{
    match (transactions.get(one), transactions.get(other)) {
        (Some(first), Some(second)) => precedes(first, second),
        _ => false,
    }
}

/// The place of the transaction of the event's thread that has not ended, if it has one.
fn open_transaction(list: &[Transaction], event: &Event) -> Option<usize>
    ensures { result ≡ position (joins event.now) list.now }
{
    list.iter()
        .position(|one| one.thread == event.thread && !is_ended(&one.text))
}

/// Adds the event at this place of the history to its transaction, or begins one.
fn add(
    alloc: Global,
    list: &mut Vec<Transaction>,
    place: usize,
    event: &Event,
) -> Result<(), AllocError>
    ensures { OnOk result (list.new.items ≡ add_event place event.now list.old.items) }
{
    match open_transaction(list, event) {
        Some(index) => {
            let open = &mut list[index];
            open.text.push(event.kind)?;
            open.last = place;
        }
        None => {
            let mut text = Vec::new(alloc);
            text.push(event.kind)?;
            list.push(Transaction {
                thread: event.thread,
                first: place,
                last: place,
                text,
            })?;
        }
    }
    Ok(())
}

/// Returns the transactions of a history, in the order of their first events.
pub fn transactions(alloc: Global, events: &[Event]) -> Result<Vec<Transaction>, AllocError>
    ensures { IfOk result (λ list. list.items ≡ transactions events.now) }
{
    let mut list = Vec::new(alloc);
    for (place, event) in events.iter().enumerate() {
        add(alloc, &mut list, place, event)?;
    }
    Ok(list)
}
