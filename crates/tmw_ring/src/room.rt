//! Whether there is room for several records.
ghost use Rattle.std.specs.Prelude.{IfErr, IfOk};
ghost use Rattle.tmw_ring.specs.RingEnds.{WriterOf};
ghost use Rattle.tmw_ring.specs.Room.{FindsFront, HasFoundFront, HasFoundRoom, LacksRoom, RoomStaysLaw};

use crate::refused::Refused;
use crate::ring_ends::{Ring, Writer};
use crate::seat_part::Part;
use crate::table_words::FRONT_WORD;
use atomic_table::Play;
use std::collections::LinkedList;

impl Ring {
    /// Tells whether so many records find room, one after another, if nobody frees a place meanwhile. 0 counts as 1.
    /// The refusal is of the kind that the last of them would meet. The call claims nothing and never waits. Places
    /// go to whoever claims them first, so a yes lasts for this writer until all writers have made so many records
    /// (`law_room_stays`). No clause says that the call looks within itself, and not before: it makes no step of the
    /// machine.
    pub fn room(&self, writer: &mut Writer, records: u64) -> Result<(), Refused>
        requires { WriterOf self.now writer.old }
        ensures still_of_ring { WriterOf self.now writer.new }
        ensures ok { IfOk result (λ _. HasFoundRoom records writer.old writer.new) }
        ensures err { IfErr result (λ refused. LacksRoom records writer.old refused writer.new) }
    {
        let front = self.find_front(writer);
        let tail = self.find_tail(writer);
        let last = tail.saturating_add(records.saturating_sub(1));
        if self.size.is_spent(last) {
            return Err(Refused::Spent { tail });
        }
        if self.size.is_full(front, last) {
            return Err(Refused::Full { front, tail });
        }
        Ok(())
    }

    /// How many places have been freed, as the writer finds it.
    fn find_front(&self, writer: &mut Writer) -> u64
        requires { WriterOf self.now writer.old }
        ensures { FindsFront result writer.old writer.new }
    {
        self.table
            .shared
            .load::<FoundFront>(&mut writer.seat, FRONT_WORD)
    }
}

/// The play in which a writer's seat finds front.
pub struct FoundFront;

impl Play<(), LinkedList<Part>> for FoundFront {
    ghost then = { λ _ old front new. HasFoundFront old front new };
}

/// States how long room for several records lasts.
///
/// Take a record that begins after `room` has found room, by the same writer, or by one whose run goes on from there
/// as after a meeting. If it is refused, it finds at least so many more places claimed than `room` did.
pub fn law_room_stays()
    ensures { RoomStaysLaw }
{}
