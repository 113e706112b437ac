//! A ring, and the ends by which threads use it.
ghost use Rattle.std.specs.Prelude.{◌≡◌};

use crate::rule::{RingSeat, RingTable};
use std::marker::Model;
use tmw_events::Ix;
use tmw_ring_defs::RingSize;

/// A ring of so many cells into which threads record events. Threads share it by a reference.
#[derive(Drop)]
pub struct Ring {
    pub(crate) table: RingTable,
    pub(crate) size: RingSize,
}

impl Model for Ring {
    ghost use Rattle.tmw_ring.specs.RingEnds.{RingIs};

    ghost Value = { RingIs };

    ghost view = { λ ring. record { table = ring.table.shared.table_id; size = ring.size } };

    ghost use Rattle.tmw_ring.specs.SeatParts.{IsRingTable};

    ghost invariant = { λ ring. IsRingTable ring.size ring.table.shared.key
        ring.table.shared.table_id };
}

/// The end at which one thread records its events.
#[derive(Drop)]
pub struct Writer {
    pub(crate) number: Ix,
    pub(crate) seat: RingSeat,
}

impl Model for Writer {
    ghost use Rattle.tmw_ring.specs.RingEnds.{WriterIs};

    ghost Value = { WriterIs };

    ghost use Rattle.tmw_ring.specs.SeatParts.{IsIdleWriter, writer_at, writer_in};

    ghost view = { λ writer. writer_at writer.seat.table_id writer.seat.me };

    ghost invariant = { λ writer. IsIdleWriter writer.number writer.seat.me };
}

impl Writer {
    /// Returns the number of the thread whose events the writer records.
    pub fn number(&self) -> Ix
        ensures { result ≡ self.now.number }
    {
        self.number
    }
}

/// The end at which events are taken, in the order of their places.
#[derive(Drop)]
pub struct Reader {
    // So many events were taken.
    pub(crate) front: u64,
    pub(crate) seat: RingSeat,
}

impl Model for Reader {
    ghost use Rattle.tmw_ring.specs.RingEnds.{ReaderIs};

    ghost Value = { ReaderIs };

    ghost use Rattle.tmw_ring.specs.SeatParts.{IsWaitingReader, reader_in, reader_is};

    ghost view = { λ reader. reader_is reader.seat.table_id (reader_in reader.seat.me.0) };

    ghost invariant = { λ reader. IsWaitingReader reader.front reader.seat.me };
}
