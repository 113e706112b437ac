//! A writer records an event: it looks at front and at tail, claims a place, fills in the value and publishes the
//! place.
ghost use Rattle.tmw_ring.specs.Shared.{Claimed, Cleared, FitsKind, Idle, IsHeader, Looked, kind_value, packed_header};
ghost use Rattle.std.specs.Prelude.{IfErr, IfOk, false, true, ◌<◌, ◌^◌, ◌≡◌};
ghost use Rattle.tmw_ring.specs.RingEnds.{WriterOf};
ghost use Rattle.tmw_ring.specs.Record.{HasRecorded, IsRefusal};
ghost use Rattle.tmw_ring.specs.SeatParts.{writer_at, writer_in};
ghost use Rattle.tmw_ring.specs.TableWords.{stamp_word, value_word};
ghost use Rattle.tmw_ring.specs.WriterSteps.{IsSeatOf, HasSeenFront, HasSeenTail, HasClaimed, HasFilled, HasPublished};

use crate::cell_layout::{CellWords, words_at};
use crate::refused::Refused;
use crate::ring_ends::{Ring, Writer};
use crate::rule::RingSeat;
use crate::seat_part::Part;
use crate::table_words::{FRONT_WORD, TAIL_WORD};
use atomic_table::Play;
use std::collections::LinkedList;
use std::marker::{Brand, PhantomData};
use tmw_events::{Event, Ix, Kind, join, pack};

/// The kind of the event that is being recorded, which each call picks.
pub trait Choice {
    ghost use Rattle.tmw_events.specs.declared.event.Kind.{Kind};

    ghost kind: { Kind };
}

impl Choice for Brand {
    ghost use Rattle.tmw_events.specs.declared.event.Kind.TheVariants.{K};

    ghost kind = { K };
}

/// The play in which a writer looks at front.
pub struct SeesFront<C> {
    marker: PhantomData<C>,
}

impl<C: Choice> Play<(), LinkedList<Part>> for SeesFront<C> {
    ghost then = { λ _ old front new. HasSeenFront C.kind old front new };
}

/// The play in which a writer looks at tail.
pub struct SeesTail<C> {
    marker: PhantomData<C>,
}

impl<C: Choice> Play<(), LinkedList<Part>> for SeesTail<C> {
    ghost then = { λ _ old tail new. HasSeenTail C.kind old tail new };
}

/// The play in which a writer claims the place that tail was.
pub struct Claims<C> {
    marker: PhantomData<C>,
}

impl<C: Choice> Play<(), LinkedList<Part>> for Claims<C> {
    ghost then = { λ _ old place new. HasClaimed C.kind old place new };
}

/// The play in which a writer fills in the value of its event.
pub struct Fills<C> {
    marker: PhantomData<C>,
}

impl<C: Choice> Play<(), LinkedList<Part>> for Fills<C> {
    ghost then = { λ _ old _ new. HasFilled C.kind old new };
}

/// The play in which a writer publishes its place.
pub struct Publishes;

impl Play<(), LinkedList<Part>> for Publishes {
    ghost then = { λ _ old _ new. HasPublished old new };
}

/// An idle writer looks at front.
fn see_front<C: Choice>(ring: &Ring, seat: &mut RingSeat) -> u64
    requires table { seat.old.table_id ≡ ring.now.table }
    requires writer { IsSeatOf ring.now.size Idle seat.old.me }
    requires kind { FitsKind C.kind }
    ensures table { seat.new.table_id ≡ seat.old.table_id }
    ensures seen { HasSeenFront C.kind seat.old.me result seat.new.me }
{
    ring.table.shared.load::<SeesFront<C>>(seat, FRONT_WORD)
}

/// A writer that has found this front looks at tail.
fn see_tail<C: Choice>(ring: &Ring, seat: &mut RingSeat, front: u64) -> u64
    requires table { seat.old.table_id ≡ ring.now.table }
    requires writer { IsSeatOf ring.now.size (Looked C.kind front) seat.old.me }
    ensures table { seat.new.table_id ≡ seat.old.table_id }
    ensures seen { HasSeenTail C.kind seat.old.me result seat.new.me }
{
    ring.table.shared.load::<SeesTail<C>>(seat, TAIL_WORD)
}

/// A cleared writer claims a place.
fn claim<C: Choice>(ring: &Ring, seat: &mut RingSeat) -> u64
    requires table { seat.old.table_id ≡ ring.now.table }
    requires writer { IsSeatOf ring.now.size (Cleared C.kind) seat.old.me }
    ensures table { seat.new.table_id ≡ seat.old.table_id }
    ensures claimed { HasClaimed C.kind seat.old.me result seat.new.me }
{
    ring.table.shared.fetch_add::<Claims<C>>(seat, TAIL_WORD, 1)
}

/// A writer that has claimed this place fills in its event's value.
fn fill<C: Choice>(ring: &Ring, seat: &mut RingSeat, words: CellWords, value: u64)
    requires table { seat.old.table_id ≡ ring.now.table }
    requires writer { IsSeatOf ring.now.size (Claimed words.place C.kind false) seat.old.me }
    requires word { words.value ≡ value_word ring.now.size.cells words.place }
    requires value { value ≡ kind_value C.kind }
    ensures table { seat.new.table_id ≡ seat.old.table_id }
    ensures filled { HasFilled C.kind seat.old.me seat.new.me }
{
    ring.table
        .shared
        .store::<Fills<C>>(seat, words.value, value);
}

/// A writer that has filled this place publishes it with its event's header.
fn publish<C: Choice>(ring: &Ring, seat: &mut RingSeat, words: CellWords, header: u64)
    requires table { seat.old.table_id ≡ ring.now.table }
    requires writer { IsSeatOf ring.now.size (Claimed words.place C.kind true) seat.old.me }
    requires word { words.stamp ≡ stamp_word ring.now.size.cells words.place }
    requires place { words.place < 2 ^ 40 }
    requires header { header
        ≡ packed_header (record { thread = (writer_in seat.old.me.0).number; kind = C.kind }) }
    requires small { IsHeader header }
    ensures table { seat.new.table_id ≡ seat.old.table_id }
    ensures published { HasPublished seat.old.me seat.new.me }
{
    ring.table
        .shared
        .store::<Publishes>(seat, words.stamp, join(words.place, header));
}

/// The writer of this number records an event of the kind.
#[inline(always)]
fn record_as<C: Choice>(
    ring: &Ring,
    seat: &mut RingSeat,
    number: Ix,
    kind: Kind,
) -> Result<u64, Refused>
    requires table { seat.old.table_id ≡ ring.now.table }
    requires writer { IsSeatOf ring.now.size Idle seat.old.me }
    requires number { (writer_in seat.old.me.0).number ≡ number }
    requires kind { kind ≡ C.kind }
    ensures table { seat.new.table_id ≡ seat.old.table_id }
    ensures writer { IsSeatOf ring.now.size Idle seat.new.me }
    ensures number { (writer_in seat.new.me.0).number ≡ (writer_in seat.old.me.0).number }
    ensures ok { IfOk result (λ place. HasRecorded kind place
        (writer_at seat.old.table_id seat.old.me) (writer_at seat.new.table_id seat.new.me)) }
    ensures err { IfErr result (λ refused. IsRefusal kind
        (writer_at seat.old.table_id seat.old.me) refused
        (writer_at seat.new.table_id seat.new.me)) }
{
    let (header, value) = pack(Event {
        thread: number,
        kind,
    });
    // Copied first, since after an atomic step it would be loaded again.
    let size = ring.size;
    let front = see_front::<C>(ring, seat);
    let tail = see_tail::<C>(ring, seat, front);
    if size.is_spent(tail) {
        return Err(Refused::Spent { tail });
    }
    if size.is_full(front, tail) {
        return Err(Refused::Full { front, tail });
    }
    let place = claim::<C>(ring, seat);
    let words = words_at(size.cells, place);
    fill::<C>(ring, seat, words, value);
    publish::<C>(ring, seat, words, header);
    Ok(place)
}

impl Ring {
    /// Records an event of the writer's thread and returns its place. It never waits. `Spent`: too few places are
    /// left up to the limit. `Full`: the ring may lack room for an event of each writer.
    #[inline(always)]
    pub fn record(&self, writer: &mut Writer, kind: Kind) -> Result<u64, Refused>
        requires of_ring { WriterOf self.now writer.old }
        ensures still_of_ring { WriterOf self.now writer.new }
        ensures number { writer.new.number ≡ writer.old.number }
        ensures ok { IfOk result (λ place. HasRecorded kind place writer.old writer.new) }
        ensures err { IfErr result (λ refused. IsRefusal kind writer.old refused writer.new) }
    {
        record_as::<Brand>(self, &mut writer.seat, writer.number, kind)
    }
}
