ghost use Rattle.std.specs.Prelude.{IfOk, IfSome, MatchOption, None, [], filter, length, ◌<◌, ◌==◌, ◌∷◌, ◌≡◌};
ghost use Rattle.tmw_reason.specs.Origins.{IsInOne, IsWithin, answered_at, caller, fate_by, is_as_expected, latest, made, may_count, origin_at, origin_in, origin_of, origins, own_calls, puts_before, read_origin, stays};
ghost use Rattle.tmw_reason.specs.Reasons.{states_at};

use crate::case_search::states_at;
use crate::reason_case::ReasonCase;
use crate::reason_step::Contradiction;
use crate::step_rules::has_value;
use std::alloc::{AllocError, Global};
use tmw_cuts::{State, operation};
use tmw_defs::{Op, Status};
use tmw_events::{Event, Ix, Kind};
use tmw_kept::{
    Call, Transaction, calls, is_answered, known_after, left_by, owner, puts, status_of, text_at,
    transactions,
};

/// What became of a value that a transaction put into a register.
#[derive(Clone, Copy, PartialEq, Eq, Debug)]
pub enum Fate {
    /// The transaction aborted.
    GivenUp,
    /// It has asked to abort.
    GivingUp,
    /// It has not yet asked to commit.
    Unasked,
    /// It may commit and left another value there at last, or is the reader itself.
    Overwritten,
    /// It left the value there, and committed or asked to.
    Stays,
}

/// Where a value comes from.
#[derive(Clone, Copy)]
pub struct Origin {
    /// The place in the window of the call that put it there.
    pub place: usize,
    /// The transaction's place among those of the window.
    pub writer: usize,
    pub fate: Fate,
}

/// Where a value comes from that a transaction read from this register, and that no serial order explains.
#[derive(Clone, Copy)]
pub enum ReadOrigin {
    /// A state before the window has it there.
    InState(Ix, u64),
    /// This call of the window put it there, or none did.
    ByCall(Ix, u64, Option<Origin>),
}

/// The operation that the call makes with what follows it in its thread.
fn made(call: Kind, next: Option<Kind>) -> Option<Op>
    ensures { MatchOption result (made call next ≡ []) (λ op. made call next ≡ op ∷ []) }
{
    match next {
        Some(answer) => operation(call, answer),
        None => None,
    }
}

/// Whether what is known is what is expected, if a value is.
fn is_as_expected(expected: Option<u64>, known: Option<u64>) -> bool
    ensures { result ≡ is_as_expected expected known }
{
    expected.is_none() || known == expected
}

/// The place of the answer by which a transaction, which makes these calls, first reads the value from the register; or,
/// with an expected value, first where its calls before say that the register holds that.
fn answered_at(register: Ix, value: u64, expected: Option<u64>, calls: &[Call]) -> Option<usize>
    ensures { result ≡ answered_at register.number value expected None calls.now }
{
    let mut known = None;
    for call in calls {
        if let Some(op) = made(call.kind, call.next) {
            if is_as_expected(expected, known) && is_answered(register, value, op) {
                return Some(call.piece.upto);
            }
            known = known_after(register.get(), known, op);
        }
    }
    None
}

/// The transaction that makes the call.
fn caller(window: &[Transaction], call: &Call) -> usize
    ensures { result ≡ caller window.now call.now }
{
    owner(window, call.piece.thread, call.piece.from, call.piece.from)
}

/// Returns the calls that the transaction makes.
fn own_calls(
    alloc: Global,
    window: &[Transaction],
    reader: usize,
    calls: &[Call],
) -> Result<Vec<Call>, AllocError>
    ensures { IfOk result (λ own. own.items ≡ own_calls window.now reader calls.now) }
{
    calls
        .iter()
        .filter(|call| caller(window, call) == reader)
        .copied()
        .collect(alloc)
}

/// What became of what a transaction of this status put there, which has asked to abort or not, and at last left the value
/// there or not.
fn fate_by(status: Status, asked: bool, last: bool) -> Fate
    ensures { result ≡ fate_by status asked last }
{
    match (status, asked, last) {
        (Status::Aborted, _, _) => Fate::GivenUp,
        (Status::Live, true, _) => Fate::GivingUp,
        (Status::Live, false, _) => Fate::Unasked,
        (Status::Pending | Status::Committed, _, true) => Fate::Stays,
        (Status::Pending | Status::Committed, _, false) => Fate::Overwritten,
    }
}

/// The origin of a value that the call put into the register.
fn origin_at(window: &[Transaction], register: Ix, value: u64, reader: usize, call: &Call) -> Origin
    ensures { result ≡ origin_at window.now register.number value reader call.now }
{
    let writer = caller(window, call);
    let text = text_at(window, writer);
    let last = left_by(register.get(), text) == Some(value);
    let asked = matches!(text.last(), Some(Kind::X));
    let fate = if writer == reader {
        Fate::Overwritten
    } else {
        fate_by(status_of(text), asked, last)
    };
    Origin {
        place: call.piece.from,
        writer,
        fate,
    }
}

/// Whether the call puts the value into the register before that answer, which is not its own.
fn puts_before(register: Ix, value: u64, upto: usize, call: &Call) -> bool
    ensures { result ≡ puts_before register.number value upto call.now }
{
    call.piece.from < upto && call.piece.upto != upto && puts(register, value, call)
}

/// Returns the origins of the value before that answer, in order.
fn origins(
    alloc: Global,
    window: &[Transaction],
    calls: &[Call],
    register: Ix,
    value: u64,
    reader: usize,
    upto: usize,
) -> Result<Vec<Origin>, AllocError>
    ensures { IfOk result (λ found. found.items
        ≡ origins window.now calls.now register.number value reader upto) }
{
    calls
        .iter()
        .filter(|call| puts_before(register, value, upto, call))
        .map(|call| origin_at(window, register, value, reader, call))
        .collect(alloc)
}

/// Returns those of the origins that may count.
fn counting(alloc: Global, origins: &[Origin]) -> Result<Vec<Origin>, AllocError>
    ensures { IfOk result (λ found. found.items
        ≡ filter (λ origin. stays origin.fate) origins.now) }
{
    origins
        .iter()
        .filter(|origin| matches!(origin.fate, Fate::Stays))
        .copied()
        .collect(alloc)
}

/// Finds the last of the origins that may count, or else the last.
fn latest(alloc: Global, origins: &[Origin]) -> Result<Option<Origin>, AllocError>
    ensures { IfOk result (λ found. found ≡ latest origins.now) }
{
    let counting = counting(alloc, origins)?;
    Ok(counting.last().or(origins.last()).copied())
}

/// Finds the last call of a window that may count, or else the last, that puts the value into the register before the
/// reader, the transaction of this number, is first answered it; or, with an expected value, first where its own calls say
/// that the register holds that. Of one that isn't answered it, the whole window is searched.
fn find_call(
    alloc: Global,
    events: &[Event],
    register: Ix,
    value: u64,
    expected: Option<u64>,
    reader: usize,
) -> Result<Option<Origin>, AllocError>
    ensures is { IfOk result (λ found. found
        ≡ origin_of events.now register.number value expected reader) }
    ensures within { IfOk result (λ found. IfSome found (λ origin. origin.place < length events.now)) }
{
    let window = transactions(alloc, events)?;
    let calls = calls(alloc, events)?;
    let own = own_calls(alloc, &window, reader, &calls)?;
    let upto = answered_at(register, value, expected, &own).unwrap_or(events.len());
    let origins = origins(alloc, &window, &calls, register, value, reader, upto)?;
    latest(alloc, &origins)
}

/// Whether a call that may count put it there.
fn may_count(origin: Option<Origin>) -> bool
    ensures { result ≡ may_count origin }
{
    origin.is_some_and(|found| found.fate == Fate::Stays)
}

/// Returns where the value in the register comes from: from a state, if one of these has it there and no call that may count
/// put it there.
fn read_origin(states: &[State], register: Ix, value: u64, origin: Option<Origin>) -> ReadOrigin
    ensures is { result ≡ read_origin states.now register value origin }
    ensures state { IsInOne states.now result }
{
    if has_value(states, register.get(), value) && !may_count(origin) {
        ReadOrigin::InState(register, value)
    } else {
        ReadOrigin::ByCall(register, value, origin)
    }
}

/// Finds where the value comes from that a derivation of the case ends with, if it ends with a read. A fact about a state is
/// valid in the case's own states: another case of the window may not have it. It fails only if an allocation does.
pub fn find_origin(
    alloc: Global,
    states: &[State],
    events: &[Event],
    case: &ReasonCase,
    end: &Contradiction,
) -> Result<Option<ReadOrigin>, AllocError>
    ensures is { IfOk result (λ found. found
        ≡ origin_in (states_at states.now case.now.states.items) events.now end.now) }
    ensures state { IfOk result (λ found. IfSome found
        (IsInOne (states_at states.now case.now.states.items))) }
    ensures within { IfOk result (λ found. IfSome found (IsWithin (length events.now))) }
{
    match *end {
        Contradiction::Cycle(_place) => Ok(None),
        Contradiction::NoSource(reader, register, value) => {
            let origin = find_call(alloc, events, register, value, None, reader)?;
            Ok(Some(ReadOrigin::ByCall(register, value, origin)))
        }
        Contradiction::Unlike(reader, register, expected, read) => {
            let origin = find_call(alloc, events, register, read, Some(expected), reader)?;
            let own = states_at(alloc, states, &case.states)?;
            Ok(Some(read_origin(&own, register, read, origin)))
        }
    }
}
