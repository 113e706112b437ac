//! The contradictions that speak of what is drawn. Those that one sentence tells are first.
ghost use Rattle.std.specs.Prelude.{IfOk, OnOk, map, ◌++◌, ◌≡◌};
ghost use Rattle.tmw_reason.specs.declared.reason_step.Contradiction.TheVariants.{Cycle};
ghost use Rattle.tmw_reason.specs.DrawnSteps.{drawn_ends, ends_at, ends_of};

use crate::drawn_steps::answered;
use crate::drawn_transaction::DrawnTransaction;
use crate::reason_step::Contradiction;
use std::alloc::{AllocError, Global};
use tmw_events::Ix;
use tmw_kept::{find_unlike, needed_of};

/// Adds what may be wrong with what the transaction read of the register: that its own calls make it another value, or that
/// nobody can have left it.
fn push_ends_at(
    ends: &mut Vec<Contradiction>,
    one: &DrawnTransaction,
    register: Ix,
) -> Result<(), AllocError>
    ensures { OnOk result (ends.new.items ≡ ends.old.items ++ ends_at one.now register) }
{
    if let Some((expected, read)) = find_unlike(register.get(), one.text) {
        ends.push(Contradiction::Unlike(one.place, register, expected, read))?;
    }
    if let Some(value) = needed_of(register.get(), one.text) {
        ends.push(Contradiction::NoSource(one.place, register, value))?;
    }
    Ok(())
}

/// Adds what may be wrong with what the transaction read.
fn push_ends_of(ends: &mut Vec<Contradiction>, one: &DrawnTransaction) -> Result<(), AllocError>
    ensures { OnOk result (ends.new.items ≡ ends.old.items ++ ends_of one.now) }
{
    let registers = answered(*ends.allocator(), one)?;
    for register in &registers {
        push_ends_at(ends, one, *register)?;
    }
    Ok(())
}

/// Returns the cycles of these transactions.
fn cycles(alloc: Global, drawn: &[DrawnTransaction]) -> Result<Vec<Contradiction>, AllocError>
    ensures { IfOk result (λ cycles. cycles.items ≡ map (λ one. Cycle one.place) drawn.now) }
{
    drawn
        .iter()
        .map(|one| Contradiction::Cycle(one.place))
        .collect(alloc)
}

/// Returns the contradictions that speak of these transactions alone.
pub(crate) fn drawn_ends(
    alloc: Global,
    drawn: &[DrawnTransaction],
) -> Result<Vec<Contradiction>, AllocError>
    ensures { IfOk result (λ ends. ends.items ≡ drawn_ends drawn.now) }
{
    let mut ends = Vec::new(alloc);
    for one in drawn {
        push_ends_of(&mut ends, one)?;
    }
    let cycles = cycles(alloc, drawn)?;
    ends.extend_from_slice(&cycles)?;
    Ok(ends)
}
