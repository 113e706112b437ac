ghost use Rattle.std.specs.Prelude.{IfOk, map, ◌≡◌};
ghost use Rattle.tmw_reason.specs.DrawnSteps.{drawn_in};

use std::alloc::{AllocError, Global};
use std::marker::Model;
use tmw_events::Kind;
use tmw_kept::{Transaction, owner_in};

/// A transaction of what is drawn: its place among those of the window, and what is kept of its text.
#[derive(Drop)]
pub(crate) struct DrawnTransaction<'a> {
    pub place: usize,
    pub text: &'a [Kind],
}

impl<'a> Model for DrawnTransaction<'a> {
    ghost use Rattle.tmw_defs.specs.History.{operations};
    ghost use Rattle.tmw_reason.specs.DrawnSteps.{Drawn};

    ghost Value = { Drawn };

    ghost view = { λ one. record { place = one.place; ops = operations one.text.now } };
}

/// Returns what is drawn of these transactions, whose events have these places in the window.
pub(crate) fn drawn_of<'a>(
    alloc: Global,
    places: &[usize],
    window: &[Transaction],
    part: &'a [Transaction],
) -> Result<Vec<DrawnTransaction<'a>>, AllocError>
    ensures { IfOk result (λ drawn. drawn.items
        ≡ map (drawn_in places.now window.now) part.now) }
{
    part.iter()
        .map(|one| DrawnTransaction {
            place: owner_in(places, window, one),
            text: &one.text,
        })
        .collect(alloc)
}
