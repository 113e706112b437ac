//! Two ends of a ring meet: each then knows that the other's places and its own are of one log.
ghost use Rattle.std.specs.Prelude.{[], ◌∷◌, ◌≡◌};
ghost use Rattle.tmw_ring.specs.RingEnds.{WriterOf, ReaderOf};
ghost use Rattle.tmw_ring.specs.Meet.{HasFoundTail, FindsTail, SeatsHaveMet, HaveMet, WritersHaveMet};

use crate::ring_ends::{Reader, Ring, Writer};
use crate::rule::RingSeat;
use crate::seat_part::Part;
use crate::seat_parts::{AllParts, BothParts, SecondPart};
use crate::table_words::TAIL_WORD;
use atomic_table::Play;
use std::collections::LinkedList;

impl Ring {
    /// Lets a writer meet the reader: the writer's next event comes after all that both had seen.
    pub fn meet(&self, writer: &mut Writer, reader: &mut Reader)
        requires writer { WriterOf self.now writer.old }
        requires reader { ReaderOf self.now reader.old }
        ensures { HaveMet writer.old writer.new reader.old reader.new }
    {
        self.meet_seats(&mut writer.seat, &mut reader.seat);
    }

    /// Lets two writers meet: the next event of each comes after all that both had seen.
    pub fn meet_writers(&self, one: &mut Writer, other: &mut Writer)
        requires one { WriterOf self.now one.old }
        requires other { WriterOf self.now other.old }
        ensures { WritersHaveMet one.old one.new other.old other.new }
    {
        self.meet_seats(&mut one.seat, &mut other.seat);
    }

    /// Returns how many places have been claimed, as the writer finds it. Its next event comes after them.
    pub fn find_tail(&self, writer: &mut Writer) -> u64
        requires { WriterOf self.now writer.old }
        ensures { FindsTail result writer.old writer.new }
    {
        self.table
            .shared
            .load::<FoundTail>(&mut writer.seat, TAIL_WORD)
    }

    /// One seat takes in the other's parts, finds tail for both, and gives them back.
    fn meet_seats(&self, one: &mut RingSeat, other: &mut RingSeat)
        requires one { one.old.table_id ≡ self.now.table }
        requires other { other.old.table_id ≡ self.now.table }
        ensures tables { (one.new.table_id ≡ one.old.table_id)
            × (other.new.table_id ≡ other.old.table_id) }
        ensures met { (first second : Part) → one.old.me ≡ (first ∷ [], [])
            → other.old.me ≡ (second ∷ [], []) → SeatsHaveMet first second one.new.me other.new.me }
    {
        let shared = &self.table.shared;
        let given = shared.split_seat::<AllParts>(other);
        shared.join_seat::<BothParts>(one, given);
        shared.load::<FoundTail>(one, TAIL_WORD);
        *other = shared.split_seat::<SecondPart>(one);
    }
}

/// The play in which a seat with any parts finds tail.
pub struct FoundTail;

impl Play<(), LinkedList<Part>> for FoundTail {
    ghost then = { HasFoundTail };
}
