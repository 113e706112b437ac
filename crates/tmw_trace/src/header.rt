ghost use Rattle.std.specs.Prelude.{IsTrue};
ghost use Rattle.tmw_trace.specs.Version.{is_start};

use crate::version::Version;
use tmw_events::{MOST_REGISTERS, Registers};

/// The first line of a trace: its version, how many registers the run has, and what they hold at the start.
/// Registers past the number hold 0, and in version `One` all do.
#[derive(Clone, Copy, PartialEq, Eq, Debug)]
pub struct Header {
    pub version: Version,
    pub registers: Registers,
    pub initial: [u64; MOST_REGISTERS],
    pub ghost starts: { IsTrue (is_start version registers.number initial) },
}
