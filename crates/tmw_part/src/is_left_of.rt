ghost use Rattle.tmw_part.specs.Shared.{is_answered, is_unread, list_all, may_go, operations};
ghost use Rattle.std.specs.Prelude.{not, ◌≡◌};
ghost use Rattle.tmw_part.specs.KeptPart.{agree, agrees};
ghost use Rattle.tmw_part.specs.PartTest.{are_ops_left, is_left_of, is_same_op};

use tmw_defs::Op;
use tmw_events::{Ix, Kind};
use tmw_kept::{
    TextOperations, Transaction, find_unlike, is_answered, left_by, needed_of, status_of,
};

/// Whether no operation of a transaction was answered this value of this register.
fn answers_none(text: &[Kind], register: Ix, value: u64) -> bool
    ensures { result
        ≡ list_all (λ op. not (is_answered register.number value op)) (operations text.now) }
{
    for op in TextOperations(text) {
        if is_answered(register, value, op) {
            return false;
        }
    }
    true
}

/// Whether no operation of the part was answered this value of this register.
pub(crate) fn is_unread(part: &[Transaction], register: Ix, value: u64) -> bool
    ensures { result ≡ is_unread part.now register.number value }
{
    part.iter()
        .all(|one| answers_none(&one.text, register, value))
}

/// Whether the operation may go, where this part is left.
fn may_go(part: &[Transaction], op: Op) -> bool
    ensures { result ≡ may_go (is_unread part.now) op }
{
    match op {
        Op::Read(_register, _value) => true,
        Op::Write(register, value) => is_unread(part, register, value),
        Op::Add(register, added, value) => is_unread(part, register, value.wrapping_add(added)),
    }
}

/// Whether both are one operation.
fn is_same_op(one: Op, other: Op) -> bool
    ensures { result ≡ is_same_op one other }
{
    match (one, other) {
        (Op::Read(q, w), Op::Read(r, v)) | (Op::Write(q, w), Op::Write(r, v)) => q == r && w == v,
        (Op::Add(q, e, w), Op::Add(r, d, v)) => q == r && e == d && w == v,
        _ => false,
    }
}

/// Whether the operations of the one text are left of those of the other, all of which but these may go.
fn are_ops_left(part: &[Transaction], left: &[Kind], whole: &[Kind]) -> bool
    ensures { result
        ≡ are_ops_left (is_unread part.now) (operations left.now) (operations whole.now) }
{
    let mut rest = left;
    for op in TextOperations(whole) {
        let mut ahead = TextOperations(rest);
        match ahead.next() {
            Some(next) if is_same_op(next, op) => rest = ahead.0,
            _ => {
                if !may_go(part, op) {
                    return false;
                }
            }
        }
    }
    TextOperations(rest).next().is_none()
}

/// Whether a transaction with this text may go as a whole.
pub(crate) fn may_go_whole(part: &[Transaction], text: &[Kind]) -> bool
    ensures { result ≡ list_all (may_go (is_unread part.now)) (operations text.now) }
{
    for op in TextOperations(text) {
        if !may_go(part, op) {
            return false;
        }
    }
    true
}

/// Whether a transaction of which this text is left needs nothing in the register, or what its whole text needs; leaves
/// nothing there, or what its whole text does; and was given no answer of it unlike its own operations, or the first with
/// the values of the first such answer of its whole text.
fn agrees(left: &[Kind], whole: &[Kind], register: u8) -> bool
    ensures { result ≡ agrees (operations left.now) (operations whole.now) register }
{
    let need = needed_of(register, left);
    let last = left_by(register, left);
    let unlike = find_unlike(register, left);
    (need.is_none() || need == needed_of(register, whole))
        && (last.is_none() || last == left_by(register, whole))
        && (unlike.is_none() || unlike == find_unlike(register, whole))
}

/// Whether a transaction of which the one text is left agrees with its whole text on each register.
fn agree(left: &[Kind], whole: &[Kind]) -> bool
    ensures { result ≡ agree (operations left.now) (operations whole.now) }
{
    (0..8u8).all(|register| agrees(left, whole, register))
}

/// Whether a transaction with the one text is left of one with the other.
pub(crate) fn is_left_of(part: &[Transaction], left: &[Kind], whole: &[Kind]) -> bool
    ensures { result ≡ is_left_of (is_unread part.now) left.now whole.now }
{
    status_of(left) == status_of(whole) && agree(left, whole) && are_ops_left(part, left, whole)
}
