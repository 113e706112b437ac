ghost use Rattle.tmw_trace.specs.Shared.{FitsKind, digit, kind_text, line};
ghost use Rattle.std.specs.Prelude.{drop, length, ℕ, ◌++◌, ◌+◌, ◌<◌, ◌^◌, ◌∷◌, ◌≡◌, ◌≤◌};
ghost use Rattle.tmw_lines.specs.GiveResult.{IsGiven};
ghost use Rattle.tmw_trace.specs.Text.{trace_grammar};

use crate::event_line::speaks;
use crate::first_number::first_number;
use crate::version::Version;
use tmw_events::{Event, Ix, Kind, ix_of};
use tmw_lines::{GiveResult, Taker};

/// The length of the longest line of an event whose number has at most nineteen digits.
const LONGEST: usize = 26;

/// Gives the taker the event of this version whose line, with its line feed, these bytes begin with, read in one
/// pass. `Nothing` says nothing about the bytes: the line of an event may be too near the end of the bytes to be read
/// here, or have too large a number.
#[inline(always)]
pub fn give_event<T: Taker<Event>>(version: Version, bytes: &[u8], taker: &mut T) -> GiveResult
    requires { (count : ℕ) × (count < 2 ^ 40) × T.taking.counts taker.old count }
    ensures { IsGiven trace_grammar T.taking version bytes.now taker.old taker.new result }
{
    if bytes.len() < LONGEST {
        return GiveResult::Nothing;
    }
    match bytes {
        [thread, b' ', kind @ ..] => {
            let Some(thread) = ix_of(*thread) else {
                return GiveResult::Nothing;
            };
            give_kind(version, thread, kind, taker)
        }
        _ => GiveResult::Nothing,
    }
}

/// Gives the event of this thread whose kind's line these bytes begin with. Each letter has a call of its own, which knows the kind.
#[inline(always)]
fn give_kind<T: Taker<Event>>(
    version: Version,
    thread: Ix,
    bytes: &[u8],
    taker: &mut T,
) -> GiveResult
    requires long { 24 ≤ length bytes.now }
    requires counted { (count : ℕ) × (count < 2 ^ 40) × T.taking.counts taker.old count }
    ensures { IsGiven trace_grammar T.taking version (digit thread ∷ 32 ∷ bytes.now) taker.old
        taker.new result }
{
    match bytes {
        [b'K', b'\n', ..] => give(version, thread, Kind::K, bytes, 2, taker),
        [b'T', b'\n', ..] => give(version, thread, Kind::T, bytes, 2, taker),
        [b'C', b'\n', ..] => give(version, thread, Kind::C, bytes, 2, taker),
        [b'X', b'\n', ..] => give(version, thread, Kind::X, bytes, 2, taker),
        [b'A', b'\n', ..] => give(version, thread, Kind::A, bytes, 2, taker),
        [b'R', b' ', register, b'\n', ..] => {
            let Some(register) = ix_of(*register) else {
                return GiveResult::Nothing;
            };
            give(version, thread, Kind::R(register), bytes, 4, taker)
        }
        [b'V', b' ', value @ ..] => {
            let Some((value, count)) = first_number(value) else {
                return GiveResult::Nothing;
            };
            give(version, thread, Kind::V(value), bytes, 2 + count, taker)
        }
        [b'W', b' ', register, b' ', value @ ..] => {
            let Some(register) = ix_of(*register) else {
                return GiveResult::Nothing;
            };
            let Some((value, count)) = first_number(value) else {
                return GiveResult::Nothing;
            };
            give(
                version,
                thread,
                Kind::W(register, value),
                bytes,
                4 + count,
                taker,
            )
        }
        [b'N', b' ', register, b' ', value @ ..] => {
            let Some(register) = ix_of(*register) else {
                return GiveResult::Nothing;
            };
            let Some((value, count)) = first_number(value) else {
                return GiveResult::Nothing;
            };
            give(
                version,
                thread,
                Kind::N(register, value),
                bytes,
                4 + count,
                taker,
            )
        }
        _ => GiveResult::Nothing,
    }
}

/// Gives the event of this kind, whose text and line feed are so many of the bytes, where the version has it.
#[inline(always)]
fn give<T: Taker<Event>>(
    version: Version,
    thread: Ix,
    kind: Kind,
    bytes: &[u8],
    count: usize,
    taker: &mut T,
) -> GiveResult
    requires within { count ≤ 24 }
    requires long { 24 ≤ length bytes.now }
    requires line { bytes.now ≡ line (kind_text kind) ++ drop count bytes.now }
    requires fits { FitsKind kind }
    requires counted { (taken : ℕ) × (taken < 2 ^ 40) × T.taking.counts taker.old taken }
    ensures { IsGiven trace_grammar T.taking version (digit thread ∷ 32 ∷ bytes.now) taker.old
        taker.new result }
{
    // Only clauses speak of the bytes.
    let _bytes = bytes;
    if !speaks(version, kind) {
        return GiveResult::Nothing;
    }
    match taker.take(Event { thread, kind }) {
        Ok(()) => GiveResult::Taken(2 + count),
        Err(_) => GiveResult::Stopped(2 + count),
    }
}
