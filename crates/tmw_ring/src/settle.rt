//! The end of a running ring, at which all its ends come back.
ghost use Rattle.std.specs.Prelude.{All, length, map, ◌++◌, ◌≡◌};
ghost use Rattle.tmw_ring.specs.RingEnds.{ReaderOf, WriterOf};
ghost use Rattle.tmw_ring.specs.Settle.{AreInOrder, IsSettled, part_of};

use crate::ring_ends::{Reader, Ring, Writer};
use crate::rule::RingSeat;
use crate::seat_parts::BothParts;
use crate::settled::Settled;
use crate::table_words::TAIL_WORD;

impl Ring {
    /// Ends the ring once its reader and all its writers have come back, writer i at place i. What nobody has taken
    /// is left.
    pub fn settle(self, reader: Reader, writers: Vec<Writer>) -> Settled
        requires reader { ReaderOf self reader }
        requires writers { All (WriterOf self) writers.items }
        requires count { length writers.items ≡ self.size.writers }
        requires order { AreInOrder writers.items }
        ensures { IsSettled reader writers.items result }
    {
        let Reader { front, mut seat } = reader;
        join_all(&self, &mut seat, writers);
        let Ring { table, size } = self;
        let closed = table.close_with(seat);
        let tail = closed.word(TAIL_WORD);
        Settled {
            closed,
            cells: size.cells,
            front,
            tail,
        }
    }
}

/// Puts each writer's part into the seat, after the parts that it has.
fn join_all(ring: &Ring, seat: &mut RingSeat, writers: Vec<Writer>)
    requires table { seat.old.table_id ≡ ring.now.table }
    requires writers { All (WriterOf ring.now) writers.items }
    ensures table { seat.new.table_id ≡ seat.old.table_id }
    ensures parts { seat.new.me ≡ (seat.old.me.0 ++ map part_of writers.items, seat.old.me.1) }
{
    for writer in writers {
        let Writer {
            number: _,
            seat: own,
        } = writer;
        ring.table.shared.join_seat::<BothParts>(seat, own);
    }
}
