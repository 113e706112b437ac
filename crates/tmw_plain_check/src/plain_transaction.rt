ghost use Rattle.std.specs.Prelude.{◌≡◌, IfOk, OnOk, position};
ghost use Rattle.tmw_defs.specs.History.{add_event, transactions};
ghost use Rattle.tmw_plain_check.specs.PlainTransaction.{txns_of, joins};

use crate::operation_and_status::is_ended;
use std::alloc::{AllocError, Global};
use tmw_events::{Event, Ix, Kind};

/// A transaction of a history: its thread, the places of its first and its last event, and its text.
#[derive(Debug, Drop)]
pub struct PlainTransaction {
    pub thread: Ix,
    pub first: usize,
    pub last: usize,
    pub text: Vec<Kind>,
}

/// The transaction to which the thread's next event belongs, if it has one that has not ended.
fn open_transaction(list: &[PlainTransaction], thread: Ix) -> Option<usize>
    ensures { result ≡ position (joins thread.number) list.now }
{
    list.iter()
        .position(|t| t.thread == thread && !is_ended(&t.text))
}

/// Adds the event at this place of the history to its transaction, or begins one.
fn add(
    alloc: Global,
    list: &mut Vec<PlainTransaction>,
    place: usize,
    event: &Event,
) -> Result<(), AllocError>
    ensures { OnOk result (txns_of list.new.items
        ≡ add_event place event.now (txns_of list.old.items)) }
{
    match open_transaction(list, event.thread) {
        Some(index) => {
            let open = &mut list[index];
            open.text.push(event.kind)?;
            open.last = place;
        }
        None => {
            let mut text = Vec::new(alloc);
            text.push(event.kind)?;
            list.push(PlainTransaction {
                thread: event.thread,
                first: place,
                last: place,
                text,
            })?;
        }
    }
    Ok(())
}

/// Returns the transactions of a history, in the order of their first events.
pub fn transactions(alloc: Global, events: &[Event]) -> Result<Vec<PlainTransaction>, AllocError>
    ensures { IfOk result (λ list. txns_of list.items ≡ transactions events.now) }
{
    let mut list = Vec::new(alloc);
    for (place, event) in events.iter().enumerate() {
        add(alloc, &mut list, place, event)?;
    }
    Ok(list)
}
