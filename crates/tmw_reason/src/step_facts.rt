ghost use Rattle.tmw_reason.specs.Shared.{list_any};
ghost use Rattle.std.specs.Prelude.{◌≡◌};
ghost use Rattle.tmw_reason.specs.ReasonSteps.{begins_before, ends_before, excludes, gives, is_before, orders, supplies, tells};

use crate::reason_step::{ReasonStep, ValueSource};

/// Whether the step says that the one transaction stands before the other.
fn orders(one: usize, other: usize, step: &ReasonStep) -> bool
    ensures { result ≡ orders one other step.now }
{
    match *step {
        ReasonStep::RealTime(a, b) | ReasonStep::Through(a, _, b) => a == one && b == other,
        ReasonStep::From(source) => source.writer == Some(one) && source.reader == other,
        ReasonStep::TooLate(_) | ReasonStep::Overwritten(..) => false,
        ReasonStep::ReadFirst(source, rival, _) => source.reader == one && rival == other,
        ReasonStep::ChangedFirst(rival, _, source) => rival == one && source.writer == Some(other),
    }
}

/// Whether the step says that this is the source.
pub(crate) fn gives(source: &ValueSource, step: &ReasonStep) -> bool
    ensures { result ≡ gives source.now step.now }
{
    matches!(step, ReasonStep::From(other) if source == other)
}

/// Whether the step says that this is not the source.
fn excludes(source: &ValueSource, step: &ReasonStep) -> bool
    ensures { result ≡ excludes source.now step.now }
{
    matches!(step, ReasonStep::TooLate(other) | ReasonStep::Overwritten(other, ..) if source == other)
}

/// Whether the step says that the transaction is some value's source.
fn supplies(place: usize, step: &ReasonStep) -> bool
    ensures { result ≡ supplies place step.now }
{
    matches!(step, ReasonStep::From(source) if source.writer == Some(place))
}

/// Whether one of the steps says that this is the source.
pub(crate) fn is_given(steps: &[ReasonStep], source: &ValueSource) -> bool
    ensures { result ≡ list_any (gives source.now) steps.now }
{
    steps.iter().any(|step| gives(source, step))
}

/// Whether one of the steps says that this is not the source.
pub(crate) fn is_excluded(steps: &[ReasonStep], source: &ValueSource) -> bool
    ensures { result ≡ list_any (excludes source.now) steps.now }
{
    steps.iter().any(|step| excludes(source, step))
}

/// Whether one of the steps says that the transaction is some value's source.
pub(crate) fn is_supplied(steps: &[ReasonStep], place: usize) -> bool
    ensures { result ≡ list_any (supplies place) steps.now }
{
    steps.iter().any(|step| supplies(place, step))
}

/// Whether by these steps the one transaction stands before the other.
pub(crate) fn is_before(steps: &[ReasonStep], one: usize, other: usize) -> bool
    ensures { result ≡ is_before steps.now one other }
{
    steps.iter().any(|step| orders(one, other, step))
}

/// Whether by these steps the one transaction stands before the other. The start stands before each.
pub(crate) fn begins_before(steps: &[ReasonStep], one: Option<usize>, other: usize) -> bool
    ensures { result ≡ begins_before steps.now one other }
{
    one.is_none_or(|place| is_before(steps, place, other))
}

/// Whether by these steps the one transaction stands before the other. None stands before the start.
pub(crate) fn ends_before(steps: &[ReasonStep], one: usize, other: Option<usize>) -> bool
    ensures { result ≡ ends_before steps.now one other }
{
    other.is_some_and(|place| is_before(steps, one, place))
}

/// Whether by these steps it is known what the step says.
pub(crate) fn tells(steps: &[ReasonStep], step: &ReasonStep) -> bool
    ensures { result ≡ tells steps.now step.now }
{
    match *step {
        ReasonStep::RealTime(one, other) | ReasonStep::Through(one, _, other) => is_before(
            steps, one, other,
        ),
        ReasonStep::From(source) => is_given(steps, &source),
        ReasonStep::TooLate(source) | ReasonStep::Overwritten(source, ..) => {
            is_excluded(steps, &source)
        }
        ReasonStep::ReadFirst(source, rival, _) => is_before(steps, source.reader, rival),
        ReasonStep::ChangedFirst(rival, _, source) => ends_before(steps, rival, source.writer),
    }
}
