//! The steps that speak of what is drawn. Those that follow from orders alone are tried first, so that a cycle is found as soon as it closes.
ghost use Rattle.tmw_reason.specs.Shared.{flat_map, list_any};
ghost use Rattle.std.specs.Prelude.{IfOk, OnOk, Some, map, ◌++◌, ◌==◌, ◌≡◌};
ghost use Rattle.tmw_reason.specs.DrawnSteps.{answered, drawn_sources, drawn_steps, real_times, source_steps, sources_at, sources_of, steps_with, throughs, throughs_to, with_register};
ghost use Rattle.tmw_reason.specs.ReasonSteps.{from_else};

use crate::drawn_transaction::DrawnTransaction;
use crate::reason_step::{ReasonStep, ValueSource};
use std::alloc::{AllocError, Global};
use tmw_defs::Op;
use tmw_events::Ix;
use tmw_kept::{TextOperations, left_by, needed_of};

/// Whether the register is one of these.
fn has_register(registers: &[Ix], register: Ix) -> bool
    ensures { result ≡ list_any (λ q. q.number == register.number) registers.now }
{
    registers.iter().any(|one| *one == register)
}

/// Adds the register, unless it is one of these.
fn push_register(registers: &mut Vec<Ix>, register: Ix) -> Result<(), AllocError>
    ensures { OnOk result (registers.new.items ≡ with_register register registers.old.items) }
{
    if !has_register(registers, register) {
        registers.push(register)?;
    }
    Ok(())
}

/// Returns the registers of which the transaction was answered a value, each once.
pub(crate) fn answered(alloc: Global, one: &DrawnTransaction) -> Result<Vec<Ix>, AllocError>
    ensures { IfOk result (λ registers. registers.items ≡ answered one.now) }
{
    let mut registers = Vec::new(alloc);
    for op in TextOperations(one.text) {
        match op {
            Op::Read(register, _value) | Op::Add(register, _, _value) => {
                push_register(&mut registers, register)?;
            }
            Op::Write(_, _) => {}
        }
    }
    Ok(registers)
}

/// Returns the sources of the same value in each transaction.
fn other_sources(
    alloc: Global,
    drawn: &[DrawnTransaction],
    start: &ValueSource,
) -> Result<Vec<ValueSource>, AllocError>
    ensures { IfOk result (λ others. others.items
        ≡ map (λ one. from_else start.now (Some one.place)) drawn.now) }
{
    drawn
        .iter()
        .map(|one| ValueSource {
            writer: Some(one.place),
            ..*start
        })
        .collect(alloc)
}

/// Adds the sources of what the reader needs in the register: the start, and each transaction.
fn push_sources_at(
    sources: &mut Vec<ValueSource>,
    drawn: &[DrawnTransaction],
    reader: &DrawnTransaction,
    register: Ix,
) -> Result<(), AllocError>
    ensures { OnOk result
        (sources.new.items ≡ sources.old.items ++ sources_at drawn.now reader.now register) }
{
    let Some(value) = needed_of(register.get(), reader.text) else {
        return Ok(());
    };
    let start = ValueSource {
        reader: reader.place,
        register,
        value,
        writer: None,
    };
    let others = other_sources(*sources.allocator(), drawn, &start)?;
    sources.push(start)?;
    sources.extend_from_slice(&others)?;
    Ok(())
}

/// Adds the sources of all that the reader needs.
fn push_sources_of(
    sources: &mut Vec<ValueSource>,
    drawn: &[DrawnTransaction],
    reader: &DrawnTransaction,
) -> Result<(), AllocError>
    ensures { OnOk result
        (sources.new.items ≡ sources.old.items ++ sources_of drawn.now reader.now) }
{
    let registers = answered(*sources.allocator(), reader)?;
    for register in &registers {
        push_sources_at(sources, drawn, reader, *register)?;
    }
    Ok(())
}

/// Returns the sources of all that the transactions need.
pub(crate) fn drawn_sources(
    alloc: Global,
    drawn: &[DrawnTransaction],
) -> Result<Vec<ValueSource>, AllocError>
    ensures { IfOk result (λ sources. sources.items ≡ drawn_sources drawn.now) }
{
    let mut sources = Vec::new(alloc);
    for reader in drawn {
        push_sources_of(&mut sources, drawn, reader)?;
    }
    Ok(sources)
}

/// Adds the steps that the source makes with this transaction as its rival, if it changes the register.
fn push_steps_with(
    steps: &mut Vec<ReasonStep>,
    source: ValueSource,
    one: &DrawnTransaction,
) -> Result<(), AllocError>
    ensures { OnOk result (steps.new.items ≡ steps.old.items ++ steps_with source one.now) }
{
    if let Some(left) = left_by(source.register.get(), one.text) {
        steps.push(ReasonStep::Overwritten(source, one.place, left))?;
        steps.push(ReasonStep::ReadFirst(source, one.place, left))?;
        steps.push(ReasonStep::ChangedFirst(one.place, left, source))?;
    }
    Ok(())
}

/// Adds the steps that the source makes.
fn push_source_steps(
    steps: &mut Vec<ReasonStep>,
    drawn: &[DrawnTransaction],
    source: ValueSource,
) -> Result<(), AllocError>
    ensures { OnOk result (steps.new.items ≡ steps.old.items ++ source_steps drawn.now source) }
{
    steps.push(ReasonStep::From(source))?;
    steps.push(ReasonStep::TooLate(source))?;
    for one in drawn {
        push_steps_with(steps, source, one)?;
    }
    Ok(())
}

/// Returns the steps by which the transaction stands before another by real time.
fn real_times(
    alloc: Global,
    drawn: &[DrawnTransaction],
    one: usize,
) -> Result<Vec<ReasonStep>, AllocError>
    ensures { IfOk result (λ steps. steps.items ≡ real_times drawn.now one) }
{
    drawn
        .iter()
        .map(|other| ReasonStep::RealTime(one, other.place))
        .collect(alloc)
}

/// Returns the steps by which the one transaction stands before the other by a third one.
fn throughs_to(
    alloc: Global,
    drawn: &[DrawnTransaction],
    one: usize,
    other: usize,
) -> Result<Vec<ReasonStep>, AllocError>
    ensures { IfOk result (λ steps. steps.items ≡ throughs_to drawn.now one other) }
{
    drawn
        .iter()
        .map(|between| ReasonStep::Through(one, between.place, other))
        .collect(alloc)
}

/// Adds the steps by which the transaction stands before another by a third one.
fn push_throughs(
    steps: &mut Vec<ReasonStep>,
    drawn: &[DrawnTransaction],
    one: usize,
) -> Result<(), AllocError>
    ensures { OnOk result (steps.new.items ≡ steps.old.items ++ throughs drawn.now one) }
{
    for other in drawn {
        let more = throughs_to(*steps.allocator(), drawn, one, other.place)?;
        steps.extend_from_slice(&more)?;
    }
    Ok(())
}

/// Adds the steps by which each transaction stands before another by real time.
fn push_real_times(
    steps: &mut Vec<ReasonStep>,
    drawn: &[DrawnTransaction],
) -> Result<(), AllocError>
    ensures { OnOk result (steps.new.items
        ≡ steps.old.items ++ flat_map (λ one. real_times drawn.now one.place) drawn.now) }
{
    for one in drawn {
        let more = real_times(*steps.allocator(), drawn, one.place)?;
        steps.extend_from_slice(&more)?;
    }
    Ok(())
}

/// Adds the steps that each of the sources makes.
fn push_each_source_steps(
    steps: &mut Vec<ReasonStep>,
    drawn: &[DrawnTransaction],
    sources: &[ValueSource],
) -> Result<(), AllocError>
    ensures { OnOk result (steps.new.items
        ≡ steps.old.items ++ flat_map (source_steps drawn.now) sources.now) }
{
    for source in sources {
        push_source_steps(steps, drawn, *source)?;
    }
    Ok(())
}

/// Adds the steps by which each transaction stands before another by a third one.
fn push_each_throughs(
    steps: &mut Vec<ReasonStep>,
    drawn: &[DrawnTransaction],
) -> Result<(), AllocError>
    ensures { OnOk result (steps.new.items
        ≡ steps.old.items ++ flat_map (λ one. throughs drawn.now one.place) drawn.now) }
{
    for one in drawn {
        push_throughs(steps, drawn, one.place)?;
    }
    Ok(())
}

/// Returns the steps that speak of these transactions alone.
pub(crate) fn drawn_steps(
    alloc: Global,
    drawn: &[DrawnTransaction],
    sources: &[ValueSource],
) -> Result<Vec<ReasonStep>, AllocError>
    requires { sources.now ≡ drawn_sources drawn.now }
    ensures { IfOk result (λ steps. steps.items ≡ drawn_steps drawn.now) }
{
    let mut steps = Vec::new(alloc);
    push_real_times(&mut steps, drawn)?;
    push_each_throughs(&mut steps, drawn)?;
    push_each_source_steps(&mut steps, drawn, sources)?;
    Ok(steps)
}
