//! The kind of event that a C program asks for.
ghost use Rattle.std.specs.Prelude.{◌≡◌, ◌<◌, ◌≤◌, IfOk, IfErr, IfSome, IfNone};
ghost use Rattle.tmw_c.specs.Kinds.{AsksFor};
ghost use Rattle.tmw_c.specs.Record.{IsUnasked};

use crate::call_status::CallStatus;
use tmw_events::{Ix, Kind, Registers};

pub(crate) const R: u32 = 82;

pub(crate) const V: u32 = 86;

pub(crate) const W: u32 = 87;

pub(crate) const K: u32 = 75;

pub(crate) const T: u32 = 84;

pub(crate) const C: u32 = 67;

pub(crate) const X: u32 = 88;

pub(crate) const A: u32 = 65;

pub(crate) const N: u32 = 78;

/// Returns the register of this number, if the memory has it.
fn register_of(registers: Registers, register: u64) -> Option<Ix>
    ensures some { IfSome result (λ ix. (ix.number ≡ register) × (register < registers.number)) }
    ensures none { IfNone result (registers.number ≤ register) }
{
    if register >= u64::from(registers.get()) {
        return None;
    }
    Ix::new(register as u8)
}

/// Returns the kind that this letter, register and value ask for. What the kind does not have is not read. `BadKind`:
/// no kind has this letter. `BadRegister`: the memory has no such register.
pub fn asked(
    registers: Registers,
    letter: u32,
    register: u64,
    value: u64,
) -> Result<Kind, CallStatus>
    ensures ok { IfOk result (AsksFor registers.number letter register value) }
    ensures err { IfErr result (IsUnasked registers.number letter register) }
{
    match letter {
        V => return Ok(Kind::V(value)),
        K => return Ok(Kind::K),
        T => return Ok(Kind::T),
        C => return Ok(Kind::C),
        X => return Ok(Kind::X),
        A => return Ok(Kind::A),
        R | W | N => {}
        _ => return Err(CallStatus::BadKind),
    }
    let Some(ix) = register_of(registers, register) else {
        return Err(CallStatus::BadRegister);
    };
    match letter {
        R => Ok(Kind::R(ix)),
        W => Ok(Kind::W(ix, value)),
        _ => Ok(Kind::N(ix, value)),
    }
}
