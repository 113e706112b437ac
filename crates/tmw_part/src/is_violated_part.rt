ghost use Rattle.tmw_part.specs.Shared.{kept_of, transactions};
ghost use Rattle.std.specs.Prelude.{IfOk, IsFalse, IsTrue, length, ◌≡◌, ◌≤◌};
ghost use Rattle.tmw_part.specs.FindPart.{FailsIn, IsPartIn};
ghost use Rattle.tmw_part.specs.PartTest.{keeps_part};

use crate::is_violated::is_violated;
use crate::marks::{are_whole, keeps_last, may_miss_all};
use crate::part_test::is_part;
use crate::whole_window::WholeWindow;
use std::alloc::{AllocError, Global};
use tmw_events::Event;
use tmw_kept::{calls, kept_of, places_of, transactions};

/// Whether what is kept passes the test of a part of the window.
fn keeps_part(
    alloc: Global,
    marks: &[bool],
    kept: &[Event],
    events: &[Event],
) -> Result<bool, AllocError>
    requires { kept.now ≡ kept_of marks.now events.now }
    ensures { IfOk result (λ keeps. keeps ≡ keeps_part marks.now events.now) }
{
    if !keeps_last(marks) {
        return Ok(false);
    }
    if !are_whole(marks, &calls(alloc, events)?) {
        return Ok(false);
    }
    let part = transactions(alloc, kept)?;
    if !may_miss_all(&part, marks, events) {
        return Ok(false);
    }
    let places = places_of(alloc, marks)?;
    is_part(alloc, &places, &part, &transactions(alloc, events)?)
}

/// Tells whether what is kept passes the test of a part of the window, and is violated.
pub(crate) fn is_violated_part(search: &WholeWindow, marks: &[bool]) -> Result<bool, AllocError>
    requires few { length (transactions search.now.events.now) ≤ 8 }
    requires each { length marks.now ≡ length search.now.events.now }
    ensures is { IfOk result (λ is. IsTrue is → IsPartIn search.now marks.now) }
    ensures fails { IfOk result (λ is. IsFalse is → FailsIn search.now marks.now) }
{
    let kept = kept_of(search.alloc, marks, search.events)?;
    if !keeps_part(search.alloc, marks, &kept, search.events)? {
        return Ok(false);
    }
    is_violated(search, &kept)
}
