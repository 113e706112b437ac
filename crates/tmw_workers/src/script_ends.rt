//! How each thread has ended.
ghost use Rattle.std.specs.Prelude.{◌≡◌, map, IfOk};
ghost use Rattle.tmw_workers.specs.Rounds.{ending_of};

use crate::ending::Ending;
use std::alloc::{AllocError, Global};
use tmw_ring::Refused;

/// Tells how each thread has ended, by the refusal at which it was stopped, if any.
pub fn ends_of(alloc: Global, stops: &[Option<Refused>]) -> Result<Vec<Ending>, AllocError>
    ensures { IfOk result (λ ends. ends.items ≡ map ending_of stops.now) }
{
    let mut ends = Vec::new(alloc);
    for stop in stops {
        ends.push(ending(*stop))?;
    }
    Ok(ends)
}

/// A thread that was not stopped is done.
fn ending(stop: Option<Refused>) -> Ending
    ensures { result ≡ ending_of stop }
{
    match stop {
        None => Ending::Done,
        Some(refused) => Ending::Stopped(refused),
    }
}
