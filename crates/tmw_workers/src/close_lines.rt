//! The rings between a leader and its workers, when the workers have come back.
ghost use Rattle.tmw_workers.specs.Shared.{IsPair};
ghost use Rattle.std.specs.Prelude.{◌≡◌, IfOk, length, map};
ghost use Rattle.tmw_workers.specs.LeaderLines.{AreClosed, ArePairs, IsClosed};

use crate::line::Line;
use crate::worker::Worker;
use std::alloc::{AllocError, Global};
use tmw_ring::{Refused, Writer};

/// Gives the writer that came back. What was told by the worker or to it, and not heard, is in the rings.
fn close_one(worker: Worker, line: &mut Line) -> Writer
    requires up { IsPair worker.up line.old.up }
    requires down { IsPair line.old.down worker.down }
    ensures writer { result ≡ worker.writer }
    ensures closed { IsClosed worker line.old }
{
    let Worker {
        writer,
        mut up,
        mut down,
    } = worker;
    line.up.slots_beside(&mut up);
    down.slots_beside(&mut line.down);
    writer
}

/// Returns the writers that came back, and beside them the refusals at which their threads stopped.
pub fn close_all(
    alloc: Global,
    back: Vec<(Worker, Option<Refused>)>,
    mut lines: Vec<Line>,
) -> Result<(Vec<Writer>, Vec<Option<Refused>>), AllocError>
    requires count { length back.items ≡ length lines.items }
    requires pairs { ArePairs (map (λ one. one.0) back.items) lines.items }
    ensures writers { IfOk result
        (λ sorted. sorted.0.items ≡ map (λ one. one.0.writer) back.items) }
    ensures stops { IfOk result (λ sorted. sorted.1.items ≡ map (λ one. one.1) back.items) }
    ensures closed { IfOk result (λ sorted. AreClosed (map (λ one. one.0) back.items) lines.items) }
{
    let mut writers = Vec::with_capacity(alloc, back.len())?;
    let mut stops = Vec::with_capacity(alloc, back.len())?;
    let mut place = 0;
    for (worker, stop) in back {
        let writer = close_one(worker, &mut lines[place]);
        place += 1;
        writers.push(writer)?;
        stops.push(stop)?;
    }
    Ok((writers, stops))
}
