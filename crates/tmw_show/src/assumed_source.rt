ghost use Rattle.tmw_show.specs.Shared.{list_any};
ghost use Rattle.std.specs.Prelude.{◌≡◌};
ghost use Rattle.tmw_reason.specs.ReasonSteps.{gives};

use tmw_reason::{ReasonStep, ValueSource};

/// Returns whether one of the steps, which are assumed, says that this is the source.
pub fn is_assumed(assumed: &[ReasonStep], source: &ValueSource) -> bool
    ensures { result ≡ list_any (gives source.now) assumed.now }
{
    assumed.iter().any(|step| gives(source, step))
}

/// Returns whether the step says that this is the source.
fn gives(source: &ValueSource, step: &ReasonStep) -> bool
    ensures { result ≡ gives source.now step.now }
{
    matches!(step, ReasonStep::From(other) if source == other)
}
