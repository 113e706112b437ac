//! Which events of a window are kept: a mark for each, in order.
ghost use Rattle.tmw_part.specs.Shared.{list_all};
ghost use Rattle.std.specs.Prelude.{IfOk, slice_index_or, true, ◌≡◌};
ghost use Rattle.tmw_part.specs.Marks.{is_of_any, keeps_last, without};
ghost use Rattle.tmw_part.specs.KeptPart.{is_whole, may_miss, may_miss_all};

use crate::is_left_of::is_unread;
use std::alloc::{AllocError, Global};
use tmw_events::{Event, Kind};
use tmw_kept::{Call, Piece, Transaction};

/// Tells whether the last event is kept.
pub(crate) fn keeps_last(marks: &[bool]) -> bool
    ensures { result ≡ keeps_last marks.now }
{
    marks.last().copied().unwrap_or(true)
}

/// The mark at the place, or true if there is none.
fn mark_at(marks: &[bool], place: usize) -> bool
    ensures { result ≡ slice_index_or marks.now place true }
{
    marks.get(place).copied().unwrap_or(true)
}

/// Tells whether each of these calls is kept with its answer, or neither is.
pub(crate) fn are_whole(marks: &[bool], calls: &[Call]) -> bool
    ensures { result ≡ list_all (is_whole marks.now) calls.now }
{
    calls.iter().all(|call| mark_at(marks, call.piece.from) == mark_at(marks, call.piece.upto))
}

/// Whether an event of this kind may be missing: it calls no write, answered or not, of a value that the part reads.
fn may_miss(part: &[Transaction], kind: Kind) -> bool
    ensures { result ≡ may_miss part.now kind }
{
    match kind {
        Kind::W(register, value) => is_unread(part, register, value),
        _ => true,
    }
}

/// Tells whether each event that is not kept may be missing.
pub(crate) fn may_miss_all(part: &[Transaction], marks: &[bool], events: &[Event]) -> bool
    ensures { result ≡ may_miss_all part.now marks.now events.now }
{
    marks
        .iter()
        .zip(events)
        .all(|(mark, event)| *mark || may_miss(part, event.kind))
}

/// Whether the event at this place is one of these pieces.
fn is_of_any(pieces: &[Piece], place: usize, event: Event) -> bool
    ensures { result ≡ is_of_any pieces.now place event }
{
    pieces.iter().any(|piece| piece.has(place, event))
}

/// Returns the marks of what is kept without these pieces.
#[tactic(auto, unfolding(crate::specs::Marks::without))]
pub(crate) fn without(
    alloc: Global,
    pieces: &[Piece],
    marks: &[bool],
    events: &[Event],
) -> Result<Vec<bool>, AllocError>
    ensures { IfOk result (λ left. left.items ≡ without pieces.now marks.now events.now) }
{
    marks
        .iter()
        .zip(events)
        .enumerate()
        .map(|(place, (mark, event))| *mark && !is_of_any(pieces, place, *event))
        .collect(alloc)
}
