ghost use Rattle.std.specs.Prelude.{IfOk, OnOk, string_bytes, ◌++◌, ◌≡◌};
ghost use Rattle.tmw_show.specs.NeededEvents.{marks_of, needed_text, part_words};

use std::alloc::{AllocError, Global};
use tmw_events::Event;
use tmw_kept::kept_of;
use tmw_part::MOST_EVENTS;
use tmw_reason::Reason;

/// Which events of a window are shown.
#[derive(Drop)]
pub enum NeededEvents {
    /// All: it isn't asked why the window is violated.
    Unasked,
    /// All: the window isn't violated.
    NotViolated,
    /// Those that have the mark, which are violated by themselves, and why the window is, if a reason was found.
    Part {
        marks: Vec<bool>,
        reason: Option<Reason>,
    },
}

/// The marks of the events that are shown.
pub fn marks_of(
    alloc: Global,
    needed: &NeededEvents,
    events: &[Event],
) -> Result<Vec<bool>, AllocError>
    ensures { IfOk result (λ marks. marks.items ≡ marks_of needed.now events.now) }
{
    match needed {
        NeededEvents::Unasked | NeededEvents::NotViolated => Vec::from_elem(
            alloc,
            true,
            events.len(),
        ),
        NeededEvents::Part { marks, .. } => marks.clone(),
    }
}

/// Adds the line that tells how many of the events are shown, if it is asked why the window is violated.
pub fn push_needed(
    text: &mut Vec<u8>,
    needed: &NeededEvents,
    events: &[Event],
) -> Result<(), AllocError>
    ensures { OnOk result (text.new.items ≡ text.old.items ++ needed_text needed.now events.now) }
{
    match needed {
        NeededEvents::Unasked => {}
        NeededEvents::NotViolated => {
            text.extend_from_slice(b"    part   all events: the run isn't violated\n")?;
        }
        NeededEvents::Part { marks, .. } => {
            let alloc = *text.allocator();
            let kept = kept_of(alloc, marks, events)?;
            let words = part_words(alloc, kept.len(), events.len())?;
            let line = format!(in alloc; "    part   {words}\n")?;
            text.extend_from_slice(line.as_bytes())?;
        }
    }
    Ok(())
}

/// Tells how many events of how many are shown, or that no part is searched for.
fn part_words(alloc: Global, shown: usize, all: usize) -> Result<String, AllocError>
    ensures { IfOk result (λ words. string_bytes words ≡ part_words shown all) }
{
    if MOST_EVENTS < all {
        format!(in alloc; "all events: of more than 1000 no part is searched for")
    } else {
        format!(in alloc; "{shown} of {all} events, violated by themselves")
    }
}
