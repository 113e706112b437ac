ghost use Rattle.tmw_part.specs.Shared.{puts};
ghost use Rattle.std.specs.Prelude.{IfOk, ◌≡◌};
ghost use Rattle.tmw_part.specs.Readers.{is_put, readers, reads_put, with_readers};

use std::alloc::{AllocError, Global};
use tmw_events::{Event, Ix, Kind};
use tmw_kept::{Call, Piece, calls, puts};

/// Whether one of these calls is of the piece and puts the value into the register.
fn is_put(piece: &Piece, calls: &[Call], register: Ix, value: u64) -> bool
    ensures { result ≡ is_put piece.now calls.now register.number value }
{
    calls.iter().any(|call| piece.has_call(&call.piece) && puts(register, value, call))
}

/// Whether the call was answered a value that the piece puts there.
fn reads_put(piece: &Piece, calls: &[Call], call: &Call) -> bool
    ensures { result ≡ reads_put piece.now calls.now call.now }
{
    match (call.kind, call.next) {
        (Kind::R(register) | Kind::N(register, _), Some(Kind::V(value))) => {
            is_put(piece, calls, register, value)
        }
        _ => false,
    }
}

/// Returns those of the calls that read a value of the piece.
fn readers(alloc: Global, piece: &Piece, calls: &[Call]) -> Result<Vec<Piece>, AllocError>
    ensures { IfOk result (λ found. found.items ≡ readers piece.now calls.now) }
{
    calls
        .iter()
        .filter(|call| reads_put(piece, calls, call))
        .map(|call| call.piece)
        .collect(alloc)
}

/// Returns the piece and the reads of its values.
pub fn with_readers(
    alloc: Global,
    piece: &Piece,
    window: &[Event],
) -> Result<Vec<Piece>, AllocError>
    ensures { IfOk result (λ pieces. pieces.items ≡ with_readers piece.now window.now) }
{
    let mut pieces = readers(alloc, piece, &calls(alloc, window)?)?;
    pieces.push(*piece)?;
    Ok(pieces)
}
