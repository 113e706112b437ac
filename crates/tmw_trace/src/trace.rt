ghost use Rattle.std.specs.Prelude.{IsTrue};
ghost use Rattle.tmw_trace.specs.Version.{are_spoken};

use crate::header::Header;
use tmw_events::Event;

/// A recorded run: a header and the events in the order in which they happened. Version `One` has no add call.
#[derive(Debug, Drop)]
pub struct Trace {
    pub header: Header,
    pub events: Vec<Event>,
    pub ghost spoken: { IsTrue (are_spoken header.version events.items) },
}
