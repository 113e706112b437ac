ghost use Rattle.tmw_kept.specs.Shared.{is_answered, operations};
ghost use Rattle.tmw_cuts.specs.RegisterUse.{left_by};
ghost use Rattle.std.specs.Prelude.{None, ◌≡◌};
ghost use Rattle.tmw_kept.specs.UnlikeAnswers.{answer_of, first_unlike, known_after, needed_of, needs};

use crate::transaction::TextOperations;
use tmw_defs::Op;
use tmw_events::{Ix, Kind};

/// Whether the operation was answered this value of this register.
pub fn is_answered(register: Ix, value: u64, op: Op) -> bool
    ensures { result ≡ is_answered register.number value op }
{
    match op {
        Op::Read(other, answer) | Op::Add(other, _, answer) => other == register && answer == value,
        Op::Write(_, _) => false,
    }
}

/// Whether the operations of a transaction need the register to hold the value before them.
pub fn needs(register: u8, value: u64, text: &[Kind]) -> bool
    ensures { result ≡ needs register value (operations text.now) }
{
    for op in TextOperations(text) {
        match op {
            Op::Read(other, read) if other.number == register && read == value => return true,
            Op::Write(other, _value) if other.number == register => return false,
            Op::Add(other, _added, read) if other.number == register => return read == value,
            _ => {}
        }
    }
    false
}

/// The value that the first operation on the register was answered, if it was answered one.
pub fn needed_of(register: u8, text: &[Kind]) -> Option<u64>
    ensures { result ≡ needed_of register (operations text.now) }
{
    for op in TextOperations(text) {
        match op {
            Op::Read(other, value) | Op::Add(other, _, value) if other.number == register => {
                return Some(value);
            }
            Op::Write(other, _value) if other.number == register => return None,
            _ => {}
        }
    }
    None
}

/// The value that the operations of a transaction leave in the register, if they write or add to it.
pub fn left_by(register: u8, text: &[Kind]) -> Option<u64>
    ensures { result ≡ left_by register None (operations text.now) }
{
    let mut left = None;
    for op in TextOperations(text) {
        match op {
            Op::Write(other, value) if other.number == register => left = Some(value),
            Op::Add(other, added, value) if other.number == register => {
                left = Some(value.wrapping_add(added));
            }
            _ => {}
        }
    }
    left
}

/// The value that the operation was answered of the register.
fn answer_of(register: u8, op: Op) -> Option<u64>
    ensures { result ≡ answer_of register op }
{
    match op {
        Op::Read(other, value) | Op::Add(other, _, value) if other.number == register => Some(
            value,
        ),
        _ => None,
    }
}

/// What the register holds after the operation, where this is known before it.
pub fn known_after(register: u8, known: Option<u64>, op: Op) -> Option<u64>
    ensures { result ≡ known_after register known op }
{
    match op {
        Op::Read(other, value) | Op::Write(other, value) if other.number == register => Some(value),
        Op::Add(other, added, value) if other.number == register => Some(value.wrapping_add(added)),
        _ => known,
    }
}

/// Finds the first operation of a transaction that was answered another value of the register than those before it
/// make it expect. Returns what was to be expected, and what was answered.
pub fn find_unlike(register: u8, text: &[Kind]) -> Option<(u64, u64)>
    ensures { result ≡ first_unlike register None (operations text.now) }
{
    let mut known = None;
    for op in TextOperations(text) {
        if let (Some(expected), Some(read)) = (known, answer_of(register, op)) {
            if expected != read {
                return Some((expected, read));
            }
        }
        known = known_after(register, known, op);
    }
    None
}
