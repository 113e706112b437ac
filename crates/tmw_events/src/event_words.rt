ghost use Rattle.std.specs.Prelude.{◌≡◌, ◌+◌, ◌*◌, ◌/◌, ◌%◌, ◌<◌, ◌^◌, IfSome, IfNone};
ghost use Rattle.tmw_events.specs.EventWords.{kind_parts, pack, IsHeader, stamp_of, header_of, joined};
ghost use Rattle.tmw_events.specs.Text.{FitsKind};
ghost use Rattle.tmw_events.specs.declared.event.Event.{Event};
ghost use Rattle.tmw_events.specs.declared.event.Kind.{Kind};

use crate::event::{Event, Kind};
use crate::ix::Ix;

/// Packs the event into two words, a header and a value. The header has the register in its lowest three bits, the
/// thread in the three above, and then the kind: R 0, V 1, W 2, K 3, T 4, C 5, X 6, A 7, N 8. A register or a value
/// that the kind lacks is 0.
pub const fn pack(event: Event) -> (u64, u64)
    ensures value { result ≡ pack event }
    ensures small { IsHeader result.0 }
{
    let (code, register, value) = parts_of(event.kind);
    (code * 64 + event.thread.get() as u64 * 8 + register, value)
}

/// The kind's code, register and value.
const fn parts_of(kind: Kind) -> (u64, u64, u64)
    ensures parts { result ≡ kind_parts kind }
    ensures code { result.0 < 9 }
    ensures register { result.1 < 8 }
{
    match kind {
        Kind::R(register) => (0, register.get() as u64, 0),
        Kind::V(value) => (1, 0, value),
        Kind::W(register, value) => (2, register.get() as u64, value),
        Kind::K => (3, 0, 0),
        Kind::T => (4, 0, 0),
        Kind::C => (5, 0, 0),
        Kind::X => (6, 0, 0),
        Kind::A => (7, 0, 0),
        Kind::N(register, value) => (8, register.get() as u64, value),
    }
}

/// Returns the event that `pack` makes these two words of, and `None` for all other words.
pub fn unpack(header: u64, value: u64) -> Option<Event>
    ensures some { IfSome result (λ event. pack event ≡ (header, value)) }
    ensures fits { IfSome result (λ event. FitsKind event.kind) }
    ensures none { IfNone result
        ((event : Event) → FitsKind event.kind → pack event ≡ (header, value) → ⊥) }
{
    let thread = low_ix(header / 8);
    let Some(kind) = kind_from(header / 64, low_ix(header), value) else {
        return None;
    };
    Some(Event { thread, kind })
}

/// The thread or register in the lowest three bits.
fn low_ix(word: u64) -> Ix
    ensures { result.number ≡ word % 8 }
{
    Ix {
        number: (word % 8) as u8,
    }
}

/// The kind with this code, this register and this value, where it has 0 for what the kind has not.
fn kind_from(code: u64, register: Ix, value: u64) -> Option<Kind>
    ensures some { IfSome result (λ kind. kind_parts kind ≡ (code, register.number, value)) }
    ensures fits { IfSome result FitsKind }
    ensures none { IfNone result
        ((kind : Kind) → kind_parts kind ≡ (code, register.number, value) → ⊥) }
{
    match (code, register.get(), value) {
        (0, _, 0) => Some(Kind::R(register)),
        (1, 0, _) => Some(Kind::V(value)),
        (2, _, _) => Some(Kind::W(register, value)),
        (3, 0, 0) => Some(Kind::K),
        (4, 0, 0) => Some(Kind::T),
        (5, 0, 0) => Some(Kind::C),
        (6, 0, 0) => Some(Kind::X),
        (7, 0, 0) => Some(Kind::A),
        (8, _, _) => Some(Kind::N(register, value)),
        _ => None,
    }
}

/// Joins a place and a header into one word: the place, counted from 1, above the header's ten bits.
pub const fn join(place: u64, header: u64) -> u64
    requires place { place < 2 ^ 40 }
    requires header { IsHeader header }
    ensures { result ≡ joined place header }
{
    (place + 1) * 1024 + header
}

/// Splits a word that `join` made into the place, counted from 1, and the header.
pub const fn split(word: u64) -> (u64, u64)
    ensures { result ≡ (stamp_of word, header_of word) }
{
    (word / 1024, word % 1024)
}
