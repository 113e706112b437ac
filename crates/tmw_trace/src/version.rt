ghost use Rattle.std.specs.Prelude.{◌≡◌};
ghost use Rattle.tmw_trace.specs.Version.{are_spoken, version_of};

use crate::event_line::speaks;
use tmw_events::Event;

/// The version of a trace text. `One` has no add call and all registers begin at 0; `Two` tells initial values.
#[derive(Clone, Copy, PartialEq, Eq, Debug)]
pub enum Version {
    One,
    Two,
}

/// Returns the version in which a trace of these events is written: `One` if none is an add call, else `Two`.
pub fn version_of(events: &[Event]) -> Version
    ensures { result ≡ version_of events.now }
{
    if are_spoken(Version::One, events) {
        Version::One
    } else {
        Version::Two
    }
}

/// Whether the version has each of these events.
fn are_spoken(version: Version, events: &[Event]) -> bool
    ensures { result ≡ are_spoken version events.now }
{
    events.iter().all(|event| speaks(version, event.kind))
}
