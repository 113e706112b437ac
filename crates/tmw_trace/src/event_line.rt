ghost use Rattle.tmw_trace.specs.Shared.{IsNoItem, event_text};
ghost use Rattle.std.specs.Prelude.{IfNone, IfSome, ◌≡◌};
ghost use Rattle.tmw_trace.specs.Version.{is_spoken};
ghost use Rattle.tmw_trace.specs.Text.{trace_grammar, FitsEvent};

use crate::version::Version;
use tmw_events::{Event, Kind, ix_of, kind_of};

/// Returns the event of this version whose text these bytes are, and `None` for all other bytes. The text is a
/// trace's line without its line feed.
pub fn event_of(version: Version, bytes: &[u8]) -> Option<Event>
    ensures some { IfSome result (λ event. bytes.now ≡ event_text event) }
    ensures fits { IfSome result (FitsEvent version) }
    ensures none { IfNone result (IsNoItem trace_grammar version bytes.now) }
{
    match bytes {
        [thread, b' ', kind @ ..] => {
            let Some(thread) = ix_of(*thread) else {
                return None;
            };
            let Some(kind) = kind_of(kind) else {
                return None;
            };
            if speaks(version, kind) {
                Some(Event { thread, kind })
            } else {
                None
            }
        }
        _ => None,
    }
}

/// Tells whether the version has this kind.
#[inline(always)]
pub fn speaks(version: Version, kind: Kind) -> bool
    ensures { result ≡ is_spoken version kind }
{
    match (version, kind) {
        (Version::One, Kind::N(_, _)) => false,
        _ => true,
    }
}
