ghost use Rattle.tmw_kept.specs.Shared.{is_call};
ghost use Rattle.std.specs.Prelude.{IfOk, IfSome, find, length, map, option_map, position, ◌+◌, ◌<◌, ◌==◌, ◌^◌, ◌≡◌};
ghost use Rattle.tmw_kept.specs.Pieces.{call_of, calls, is_of, is_within, pieces, puts, whole_of};

use crate::transaction::{Transaction, transactions};
use std::alloc::{AllocError, Global};
use tmw_events::{Event, Ix, Kind};

/// What is taken out of a window at once: the events of a thread from one place up to another. Places count from 0.
#[derive(Clone, Copy)]
pub struct Piece {
    pub thread: u8,
    pub from: usize,
    pub upto: usize,
}

/// A call of a window, with the next event of its thread: its answer, if it has one and the events are well-formed.
#[derive(Clone, Copy)]
pub struct Call {
    pub piece: Piece,
    pub kind: Kind,
    pub next: Option<Kind>,
}

impl Piece {
    /// Tells whether the event at this place is one of the piece.
    pub fn has(&self, place: usize, event: Event) -> bool
        ensures { result ≡ is_of self.now place event }
    {
        event.thread.get() == self.thread && self.from <= place && place <= self.upto
    }

    /// Tells whether the call is one of the piece.
    pub fn has_call(&self, call: &Piece) -> bool
        ensures { result ≡ is_within self.now call.now }
    {
        call.thread == self.thread && self.from <= call.from && call.from <= self.upto
    }
}

/// Tells whether the call puts the value into the register.
pub fn puts(register: Ix, value: u64, call: &Call) -> bool
    ensures { result ≡ puts register.number value call.now }
{
    match (call.kind, call.next) {
        (Kind::W(other, written), _) => other == register && written == value,
        (Kind::N(other, added), Some(Kind::V(found))) => {
            other == register && found.wrapping_add(added) == value
        }
        _ => false,
    }
}

/// Whether an event of this kind is a call.
fn is_call(kind: Kind) -> bool
    ensures { result ≡ is_call 8 kind }
{
    matches!(
        kind,
        Kind::R(_) | Kind::W(_, _) | Kind::N(_, _) | Kind::T | Kind::X
    )
}

/// The place of the first event of the thread.
fn first_of(thread: Ix, events: &[Event]) -> Option<usize>
    ensures place { result
        ≡ position (λ event. event.thread.number == thread.number) events.now }
    ensures within { IfSome result (λ place. place < length events.now) }
{
    events.iter().position(|event| event.thread == thread)
}

/// The thread's first event among these.
fn next_of(thread: Ix, events: &[Event]) -> Option<Kind>
    ensures { result ≡ option_map (λ event. event.kind)
        (find (λ event. event.thread.number == thread.number) events.now) }
{
    events
        .iter()
        .find(|event| event.thread == thread)
        .map(|event| event.kind)
}

/// The call at this place, before these events, with its answer if it has one.
fn call_of(place: usize, call: Event, events: &[Event]) -> Call
    requires { place + 1 + length events.now < 2 ^ 64 }
    ensures { result ≡ call_of place call events.now }
{
    let upto = match first_of(call.thread, events) {
        Some(number) => place + 1 + number,
        None => place,
    };
    Call {
        piece: Piece {
            thread: call.thread.get(),
            from: place,
            upto,
        },
        kind: call.kind,
        next: next_of(call.thread, events),
    }
}

/// Returns the calls of a window, each with its answer if it has one.
pub fn calls(alloc: Global, events: &[Event]) -> Result<Vec<Call>, AllocError>
    ensures { IfOk result (λ all. all.items ≡ calls events.now) }
{
    let mut calls = Vec::new(alloc);
    let mut rest = events;
    let mut place = 0;
    while let [event, more @ ..] = rest {
        if is_call(event.kind) {
            calls.push(call_of(place, *event, more))?;
        }
        place += 1;
        rest = more;
    }
    Ok(calls)
}

/// Each of these transactions as a piece.
fn wholes(alloc: Global, transactions: &[Transaction]) -> Result<Vec<Piece>, AllocError>
    ensures { IfOk result (λ all. all.items ≡ map whole_of transactions.now) }
{
    transactions
        .iter()
        .map(|one| Piece {
            thread: one.thread.get(),
            from: one.first,
            upto: one.last,
        })
        .collect(alloc)
}

/// Each of these calls as a piece.
fn call_pieces(alloc: Global, calls: &[Call]) -> Result<Vec<Piece>, AllocError>
    ensures { IfOk result (λ all. all.items ≡ map (λ call. call.piece) calls.now) }
{
    calls.iter().map(|call| call.piece).collect(alloc)
}

/// Returns the pieces of a window: its transactions, and then their calls, each with its answer if it has one.
pub fn pieces(alloc: Global, events: &[Event]) -> Result<Vec<Piece>, AllocError>
    ensures { IfOk result (λ all. all.items ≡ pieces events.now) }
{
    let mut pieces = wholes(alloc, &transactions(alloc, events)?)?;
    pieces.extend_from_slice(&call_pieces(alloc, &calls(alloc, events)?)?)?;
    Ok(pieces)
}
