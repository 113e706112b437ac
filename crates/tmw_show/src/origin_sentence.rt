//! The sentence that tells where a value comes from that no serial order explains.
ghost use Rattle.tmw_show.specs.Shared.{members};
ghost use Rattle.std.specs.Prelude.{IfOk, IfSome, length, string_bytes, ◌+◌, ◌<◌, ◌^◌, ◌≡◌};
ghost use Rattle.tmw_show.specs.Sentences.{fate_text, origin_text, start_text, told_by};

use std::alloc::{AllocError, Global};
use tmw_events::Ix;
use tmw_reason::{Contradiction, Fate, Origin, ReadOrigin, ReasonCase, find_origin};
use tmw_texts::{TransactionName, Value};
use tmw_window::ShownWindow;

/// What became of what a transaction put there.
fn fate_text(fate: Fate) -> &'static str
    ensures { result.now ≡ fate_text fate }
{
    match fate {
        Fate::GivenUp => ", and aborted",
        Fate::GivingUp => ", and has asked to abort",
        Fate::Unasked => ", and has not yet asked to commit",
        Fate::Overwritten => ", then another value",
        Fate::Stays => "",
    }
}

/// Tells where a value comes from in a window before which so many events stand.
fn origin_text(
    alloc: Global,
    values: &[u64],
    before: u128,
    register: Ix,
    value: u64,
    origin: Option<Origin>,
) -> Result<String, AllocError>
    requires { IfSome origin (λ found. before + (found.place + 1) < 2 ^ 128) }
    ensures { IfOk result (λ text. string_bytes text
        ≡ origin_text values.now before register.number value origin) }
{
    let (value, register) = (Value(values, value), register.get());
    let Some(origin) = origin else {
        return format!(in alloc;
            "no earlier event of this window sets register {register} to {value}"
        );
    };
    let writer = TransactionName(origin.writer);
    let event = before + (origin.place as u128 + 1);
    let fate = fate_text(origin.fate);
    format!(in alloc; "{writer} set register {register} to {value} at event {event}{fate}")
}

/// Tells that a state has the value in the register.
fn start_text(alloc: Global, values: &[u64], register: u8, value: u64) -> Result<String, AllocError>
    ensures { IfOk result (λ text. string_bytes text ≡ start_text values.now register value) }
{
    let value = Value(values, value);
    format!(in alloc; "a state has {value} in register {register}")
}

/// Returns the text that tells where the value comes from of the read that no order explains, if this derivation of the case
/// ends with one. So many events stand before the window. These values have names.
pub fn told_by(
    alloc: Global,
    values: &[u64],
    before: u128,
    showing: &ShownWindow,
    case: &ReasonCase,
    end: &Contradiction,
) -> Result<String, AllocError>
    requires { before + length showing.now.events.items < 2 ^ 128 }
    ensures { let w = showing.now in IfOk result (λ text. string_bytes text
        ≡ told_by values.now before (members w.states) w.events.items case.now end.now) }
{
    match find_origin(alloc, showing.states.states(), &showing.events, case, end)? {
        None => Ok(String::new(alloc)),
        Some(ReadOrigin::InState(register, value)) => {
            start_text(alloc, values, register.get(), value)
        }
        Some(ReadOrigin::ByCall(register, value, origin)) => {
            origin_text(alloc, values, before, register, value, origin)
        }
    }
}
