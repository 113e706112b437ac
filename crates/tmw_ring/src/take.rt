//! Taking the next event, in three steps of the reader.
ghost use Rattle.std.specs.Prelude.{IfNone, IfSome, ◌-◌, ◌<◌, ◌^◌, ◌≡◌};
ghost use Rattle.tmw_ring.specs.RingEnds.{ReaderOf};
ghost use Rattle.tmw_ring.specs.SeatParts.{IsWaitingReader};
ghost use Rattle.tmw_ring.specs.Take.{IsReadyReader, IsToldReader, StampSeen, ValueRead, PlaceFreed, HasTaken, HasFoundNone};
ghost use Rattle.tmw_ring.specs.TableWords.{stamp_word, value_word};

use crate::cell_layout::{CellWords, words_at};
use crate::ring_ends::{Reader, Ring};
use crate::rule::RingSeat;
use crate::seat_part::Part;
use crate::table_words::FRONT_WORD;
use atomic_table::Play;
use std::collections::LinkedList;
use tmw_events::{Event, split, unpack};

impl Ring {
    /// Takes the next event, or returns `None` if the next place is not published yet.
    pub fn take(&self, reader: &mut Reader) -> Option<Event>
        requires { ReaderOf self.now reader.old }
        ensures same { ReaderOf self.now reader.new }
        ensures some { IfSome result (λ event. HasTaken reader.old event reader.new) }
        ensures none { IfNone result (HasFoundNone reader.old reader.new) }
    {
        let front = reader.front;
        let words = words_at(self.size.cells, front);
        let word = self.see_stamp(&mut reader.seat, words);
        let (stamp, header) = split(word);
        if stamp != front + 1 {
            return None;
        }
        let value = self.read(&mut reader.seat, words);
        let Some(event) = unpack(header, value) else {
            return None;
        };
        self.free(&mut reader.seat, front);
        reader.front = front + 1;
        Some(event)
    }

    /// Loads the first word of the next place's cell, which tells its stamp and its event's header.
    fn see_stamp(&self, seat: &mut RingSeat, words: CellWords) -> u64
        requires table { seat.old.table_id ≡ self.now.table }
        requires waiting { IsWaitingReader words.place seat.old.me }
        requires word { words.stamp ≡ stamp_word self.now.size.cells words.place }
        ensures table { seat.new.table_id ≡ seat.old.table_id }
        ensures seen { StampSeen seat.old.me result seat.new.me }
    {
        self.table.shared.load::<SeesStamp>(seat, words.stamp)
    }

    /// Loads the second word of the next place's cell, which is its event's value.
    fn read(&self, seat: &mut RingSeat, words: CellWords) -> u64
        requires table { seat.old.table_id ≡ self.now.table }
        requires ready { IsReadyReader words.place seat.old.me }
        requires word { words.value ≡ value_word self.now.size.cells words.place }
        ensures table { seat.new.table_id ≡ seat.old.table_id }
        ensures read { ValueRead seat.old.me result seat.new.me }
    {
        self.table.shared.load::<ReadsValue>(seat, words.value)
    }

    /// Stores the next front. The event is taken.
    fn free(&self, seat: &mut RingSeat, front: u64)
        requires table { seat.old.table_id ≡ self.now.table }
        requires small { front < 2 ^ 64 - 1 }
        requires told { IsToldReader front seat.old.me }
        ensures table { seat.new.table_id ≡ seat.old.table_id }
        ensures freed { PlaceFreed seat.old.me seat.new.me }
    {
        self.table
            .shared
            .store::<FreesPlace>(seat, FRONT_WORD, front + 1);
    }
}

/// The play in which the reader sees the stamp of the next place's cell.
pub struct SeesStamp;

impl Play<(), LinkedList<Part>> for SeesStamp {
    ghost then = { λ step me word after. StampSeen me word after };
}

/// The play in which the reader reads the value in the next place's cell.
pub struct ReadsValue;

impl Play<(), LinkedList<Part>> for ReadsValue {
    ghost then = { λ step me value after. ValueRead me value after };
}

/// The play in which the reader frees the next place.
pub struct FreesPlace;

impl Play<(), LinkedList<Part>> for FreesPlace {
    ghost then = { λ step me front after. PlaceFreed me after };
}
