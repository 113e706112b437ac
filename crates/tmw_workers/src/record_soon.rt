ghost use Rattle.tmw_workers.specs.Shared.{WriterOf};
ghost use Rattle.std.specs.Prelude.{◌≡◌};
ghost use Rattle.tmw_workers.specs.RecordSoon.{HasTried};

use crate::signals::Signals;
use std::thread;
use tmw_events::Kind;
use tmw_ring::{Refused, Ring, Writer};

/// Records an event and returns its place. If the ring is full it tries again, up to `tries` times and while somebody
/// pumps, and then returns the refusal.
pub fn record_soon(
    ring: &Ring,
    writer: &mut Writer,
    kind: Kind,
    tries: u64,
    signals: &Signals,
) -> Result<u64, Refused>
    requires { WriterOf ring.now writer.old }
    ensures of_ring { WriterOf ring.now writer.new }
    ensures number { writer.new.number ≡ writer.old.number }
    ensures tried { HasTried kind writer.old result writer.new }
{
    for _ in 0..tries {
        let answer = ring.record(writer, kind);
        let Err(Refused::Full { front: _, tail: _ }) = answer else {
            return answer;
        };
        if signals.is_given_up() {
            return answer;
        }
        thread::yield_now();
    }
    ring.record(writer, kind)
}
