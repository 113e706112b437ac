//! The main thread takes events, and looks again while the next one is not published.
ghost use Rattle.tmw_ring.specs.RingEnds.{ReaderOf};
ghost use Rattle.time_ring.specs.Counts.{HasTakenMore};

use crate::pause::pause;
use std::sync::Wait;
use tmw_ring::{Reader, Ring};

/// Takes so many events.
pub fn take_all<R: Wait>(rt: &R, ring: &Ring, reader: &mut Reader, count: u64)
    requires { ReaderOf ring.now reader.old }
    ensures { HasTakenMore ring.now count reader.old reader.new }
{
    for step in 0..count {
        take_one(rt, ring, reader);
    }
}

/// Takes one event.
fn take_one<R: Wait>(rt: &R, ring: &Ring, reader: &mut Reader)
    requires { ReaderOf ring.now reader.old }
    ensures { HasTakenMore ring.now 1 reader.old reader.new }
{
    let mut tries = 0u8;
    for _ in rt.forever() {
        if ring.take(reader).is_some() {
            return;
        }
        pause(tries);
        tries = (tries + 1) % 64;
    }
    unreachable!()
}
