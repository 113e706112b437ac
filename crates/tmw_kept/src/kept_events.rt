//! Which events of a window are kept: a mark for each, in order.
ghost use Rattle.tmw_kept.specs.KeptEvents.{is_among, kept_of, places_of};
ghost use Rattle.std.specs.Prelude.{IfOk, ◌≡◌};

use std::alloc::{AllocError, Global};
use tmw_events::Event;

/// Returns the events that are kept.
pub fn kept_of(alloc: Global, marks: &[bool], events: &[Event]) -> Result<Vec<Event>, AllocError>
    ensures { IfOk result (λ kept. kept.items ≡ kept_of marks.now events.now) }
{
    marks
        .iter()
        .zip(events)
        .filter(|pair| *pair.0)
        .map(|pair| *pair.1)
        .collect(alloc)
}

/// Returns the places of the events that are kept.
pub fn places_of(alloc: Global, marks: &[bool]) -> Result<Vec<usize>, AllocError>
    ensures { IfOk result (λ places. places.items ≡ places_of marks.now) }
{
    marks
        .iter()
        .enumerate()
        .filter(|pair| *pair.1)
        .map(|pair| pair.0)
        .collect(alloc)
}

/// Tells whether the place is one of these.
pub fn is_among(place: usize, places: &[usize]) -> bool
    ensures { result ≡ is_among place places.now }
{
    places.iter().any(|other| *other == place)
}
