ghost use Rattle.std.specs.Prelude.{IfOk};
ghost use Rattle.tmw_reason.specs.DerivationSearch.{AreCandidates};

use crate::drawn_ends::drawn_ends;
use crate::drawn_steps::{drawn_sources, drawn_steps};
use crate::drawn_transaction::DrawnTransaction;
use crate::reason_step::{Contradiction, ReasonStep, ValueSource};
use std::alloc::{AllocError, Global};

/// What a derivation is made of, and the sources that values may have.
#[derive(Drop)]
pub(crate) struct Candidates {
    pub sources: Vec<ValueSource>,
    pub steps: Vec<ReasonStep>,
    pub ends: Vec<Contradiction>,
}

/// Returns all that speaks of these transactions alone.
pub(crate) fn drawn_candidates(
    alloc: Global,
    drawn: &[DrawnTransaction],
) -> Result<Candidates, AllocError>
    ensures { IfOk result (AreCandidates drawn.now) }
{
    let sources = drawn_sources(alloc, drawn)?;
    let steps = drawn_steps(alloc, drawn, &sources)?;
    let ends = drawn_ends(alloc, drawn)?;
    Ok(Candidates {
        sources,
        steps,
        ends,
    })
}
