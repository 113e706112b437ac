ghost use Rattle.tmw_part.specs.Shared.{kept_of, members, pieces, transactions};
ghost use Rattle.std.specs.Prelude.{All, IfNone, IfOk, IfSome, IsFalse, IsTrue, length, ◌<◌, ◌≡◌, ◌≤◌};
ghost use Rattle.tmw_part.specs.FindPart.{AreNeededIn, FindsPart, IsMinimalIn, IsNeededIn, IsPartIn};

use crate::is_violated::is_violated;
use crate::is_violated_part::is_violated_part;
use crate::marks::without;
use crate::readers::with_readers;
use crate::whole_window::WholeWindow;
use std::alloc::{AllocError, Global};
use tmw_cuts::States;
use tmw_defs::Criterion;
use tmw_events::{Event, Registers};
use tmw_kept::{Piece, pieces};

/// How many events a window has at most that is searched.
pub const MOST_EVENTS: usize = 1_000;

/// What is kept without these pieces, if that is less, and a violated part still.
fn try_without(
    search: &WholeWindow,
    pieces: &[Piece],
    marks: &[bool],
) -> Result<Option<Vec<bool>>, AllocError>
    requires few { length (transactions search.now.events.now) ≤ 8 }
    requires each { length marks.now ≡ length search.now.events.now }
    ensures part { IfOk result (λ found. IfSome found (λ left. IsPartIn search.now left.items)) }
    ensures fewer { let events = search.now.events.now in IfOk result (λ found. IfSome found
        (λ left. length (kept_of left.items events) < length (kept_of marks.now events))) }
    ensures needed { IfOk result (λ found. IfNone found
        (AreNeededIn search.now marks.now pieces.now)) }
{
    let left = without(search.alloc, pieces, marks, search.events)?;
    if left.as_slice() == marks {
        return Ok(None);
    }
    if !is_violated_part(search, &left)? {
        return Ok(None);
    }
    Ok(Some(left))
}

/// What is kept without the piece, alone or together with the reads of its values, if that is less, and a violated part
/// still.
fn try_piece(
    search: &WholeWindow,
    piece: &Piece,
    marks: &[bool],
) -> Result<Option<Vec<bool>>, AllocError>
    requires few { length (transactions search.now.events.now) ≤ 8 }
    requires each { length marks.now ≡ length search.now.events.now }
    ensures part { IfOk result (λ found. IfSome found (λ left. IsPartIn search.now left.items)) }
    ensures fewer { let events = search.now.events.now in IfOk result (λ found. IfSome found
        (λ left. length (kept_of left.items events) < length (kept_of marks.now events))) }
    ensures needed { IfOk result (λ found. IfNone found
        (IsNeededIn search.now marks.now piece.now)) }
{
    let alone = try_without(search, &[*piece], marks)?;
    if alone.is_some() {
        return Ok(alone);
    }
    let pieces = with_readers(search.alloc, piece, search.events)?;
    try_without(search, &pieces, marks)
}

/// Takes each of the pieces in turn out of what is kept, alone or with the reads of its values, if what is left is a
/// violated part still. Tells whether it took one.
fn take_out(
    search: &WholeWindow,
    pieces: &[Piece],
    marks: &mut Vec<bool>,
) -> Result<bool, AllocError>
    requires few { length (transactions search.now.events.now) ≤ 8 }
    requires part { IsPartIn search.now marks.old.items }
    ensures part { IfOk result (λ _. IsPartIn search.now marks.new.items) }
    ensures fewer { IfOk result (λ took. IsTrue took
        → length (kept_of marks.new.items search.now.events.now)
        < length (kept_of marks.old.items search.now.events.now)) }
    ensures needed { IfOk result (λ took. IsFalse took → (marks.new.items ≡ marks.old.items)
        × All (IsNeededIn search.now marks.old.items) pieces.now) }
{
    let mut took = false;
    for piece in pieces {
        let found = try_piece(search, piece, marks)?;
        if let Some(left) = found {
            *marks = left;
            took = true;
        }
    }
    Ok(took)
}

/// Takes pieces out of what is kept, until no more can be taken out.
fn take_all_out(search: &WholeWindow, marks: &mut Vec<bool>) -> Result<(), AllocError>
    requires few { length (transactions search.now.events.now) ≤ 8 }
    requires part { IsPartIn search.now marks.old.items }
    ensures { IfOk result (λ _. IsMinimalIn search.now marks.new.items) }
{
    let pieces = pieces(search.alloc, search.events)?;
    let mut took = true;
    while took {
        took = take_out(search, &pieces, marks)?;
    }
    Ok(())
}

/// Finds a part of a window that is violated by itself, from any of the states, and of which nothing more can be taken
/// out, one transaction or one call with its answer at a time, alone or with the reads of its values: for each event,
/// whether it is kept. The last event is, and each write of a value that the part reads. What a transaction needs of a
/// register or leaves there at last, if the part has it do so, is what it needs or leaves in the window. The first answer
/// unlike its own calls has the values that it has in the window. Of a window with no state before it, of more than
/// `MOST_EVENTS` events, or that is not violated, all are kept. It fails only if an allocation does.
pub fn find_part(
    criterion: Criterion,
    alloc: Global,
    registers: Registers,
    states: &States,
    events: &[Event],
) -> Result<Vec<bool>, AllocError>
    ensures { IfOk result (λ marks. FindsPart criterion registers.number (members states.now)
        events.now marks.items) }
{
    let mut marks = vec![in alloc; true; events.len()]?;
    if states.is_empty() || events.len() > MOST_EVENTS {
        return Ok(marks);
    }
    let search = WholeWindow {
        criterion,
        alloc,
        registers,
        states,
        events,
    };
    if !is_violated(&search, events)? {
        return Ok(marks);
    }
    take_all_out(&search, &mut marks)?;
    Ok(marks)
}
