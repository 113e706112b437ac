//! New rings between a leader and its workers.
ghost use Rattle.std.specs.Prelude.{IfOk};
ghost use Rattle.tmw_workers.specs.LeaderLines.{AreOpened, IsOpened};

use crate::line::Line;
use crate::worker::Worker;
use rtrb::RingBuffer;
use std::alloc::{AllocError, Global};
use tmw_ring::Writer;

/// A ring holds so many things at most, one more than there ever are.
const ROOM: usize = 2;

fn open_one(alloc: Global, writer: Writer) -> Result<(Worker, Line), AllocError>
    ensures { IfOk result (λ opened. IsOpened writer opened.0 opened.1) }
{
    // The contracts of `rtrb` say that what is heard was told, and in which order: no clause has to say it of a thread.
    let (tells, hears) = RingBuffer::new(alloc, ROOM)?;
    let (leads, is_led) = RingBuffer::new(alloc, ROOM)?;
    let worker = Worker {
        writer,
        up: tells,
        down: is_led,
    };
    let line = Line {
        up: hears,
        down: leads,
    };
    Ok((worker, line))
}

/// Makes a worker for each writer, and the line to it.
pub fn open_all(alloc: Global, writers: Vec<Writer>) -> Result<(Vec<Worker>, Vec<Line>), AllocError>
    ensures { IfOk result (λ opened. AreOpened writers.items opened.0.items opened.1.items) }
{
    let mut workers = Vec::new(alloc);
    let mut lines = Vec::new(alloc);
    for writer in writers {
        let (worker, line) = open_one(alloc, writer)?;
        workers.push(worker)?;
        lines.push(line)?;
    }
    Ok((workers, lines))
}
