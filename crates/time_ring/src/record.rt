//! A writer records its events, each tried again while the ring is full.
ghost use Rattle.std.specs.Prelude.{OnOk};
ghost use Rattle.tmw_ring.specs.RingEnds.{WriterOf};
ghost use Rattle.time_ring.specs.Counts.{HasMade};

use crate::pause::pause;
use std::sync::Wait;
use tmw_events::Kind;
use tmw_ring::{Refused, Ring, Writer};

/// Records so many events, whose values count from 0.
pub fn record_all<R: Wait>(
    rt: &R,
    ring: &Ring,
    writer: &mut Writer,
    count: u64,
) -> Result<(), Refused>
    requires { WriterOf ring.now writer.old }
    ensures { OnOk result (HasMade ring.now count writer.old writer.new) }
{
    for value in 0..count {
        record_one(rt, ring, writer, Kind::V(value))?;
    }
    Ok(())
}

/// Records one event.
fn record_one<R: Wait>(rt: &R, ring: &Ring, writer: &mut Writer, kind: Kind) -> Result<(), Refused>
    requires { WriterOf ring.now writer.old }
    ensures { OnOk result (HasMade ring.now 1 writer.old writer.new) }
{
    let mut tries = 0u8;
    for _ in rt.forever() {
        match ring.record(writer, kind) {
            Ok(_) => return Ok(()),
            Err(Refused::Spent { tail }) => return Err(Refused::Spent { tail }),
            Err(Refused::Full { .. }) => pause(tries),
        }
        tries = (tries + 1) % 64;
    }
    unreachable!()
}
