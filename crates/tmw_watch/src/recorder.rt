//! The end by which one thread records.
ghost use Rattle.tmw_watch.specs.Shared.{WriterOf};
ghost use Rattle.std.specs.Prelude.{◌≡◌, IfOk, IfErr};
ghost use Rattle.tmw_ring.specs.Record.{HasRecorded, IsRefusal};
ghost use Rattle.tmw_ring.specs.Room.{HasFoundRoom, LacksRoom};

use std::alloc::Global;
use std::sync::Arc;
use tmw_events::{Ix, Kind};
use tmw_ring::{Refused, Ring, Writer};

/// The end by which one thread records what it calls and what it is answered. It may go to another thread, and is
/// used by one call at a time.
#[derive(Drop)]
pub struct Recorder {
    pub(crate) ring: Arc<Ring, Global>,
    pub(crate) writer: Writer,
    pub ghost of_ring: { WriterOf ring.value writer },
}

impl Recorder {
    ghost use Rattle.tmw_watch.specs.WatchParts.{recorder_ring, writer_of};

    /// Makes a recorder that records by this writer of the ring.
    pub(crate) fn new(ring: Arc<Ring, Global>, writer: Writer) -> Recorder
        requires { WriterOf ring.value writer }
        ensures ring { recorder_ring result ≡ ring }
        ensures writer { writer_of result ≡ writer }
    {
        Recorder { ring, writer }
    }

    /// Returns the number of the thread whose events it records: 0 to 7, and below the number of the watch's
    /// recorders.
    pub fn number(&self) -> Ix
        ensures { result ≡ (writer_of self.now).number }
    {
        self.writer.number()
    }

    /// Records one event of its thread and returns the event's place in the one log, counted from 0. It never waits
    /// and takes no memory. If it is refused, nothing was claimed. `Full`: at the front and then the tail that the
    /// call found there was no room for an event of each recorder. Once the watch has pumped more, the same event may
    /// be tried again. `Spent`: fewer places than there are recorders are left up to the limit of events, and no
    /// later call of this recorder is given a place.
    #[inline(always)]
    pub fn record(&mut self, kind: Kind) -> Result<u64, Refused>
        ensures ring { recorder_ring self.new ≡ recorder_ring self.old }
        ensures number { (writer_of self.new).number ≡ (writer_of self.old).number }
        ensures ok { IfOk result (λ place. HasRecorded kind place (writer_of self.old)
            (writer_of self.new)) }
        ensures err { IfErr result (λ refused. IsRefusal kind (writer_of self.old) refused
            (writer_of self.new)) }
    {
        self.ring.record(&mut self.writer, kind)
    }
    /// Tells whether so many records find room, one after another. It is for use before a transaction begins, so that
    /// its records aren't refused. 0 counts as 1. It claims nothing, never waits and takes no memory. A yes lasts
    /// until so many more events than it found are recorded by all recorders together, counting each call that has
    /// begun. No record of this recorder that begins meanwhile is refused (`law_room_stays` of `tmw_ring`). `Full`:
    /// at the front and then the tail that the call found there was no room for so many and an event of each other
    /// recorder. There never is if these are more than the cells. `Spent`: so many places, and one for each other
    /// recorder, are not left up to the limit of events, nor will they be. Fewer may find room yet.
    pub fn room(&mut self, records: u64) -> Result<(), Refused>
        ensures ring { recorder_ring self.new ≡ recorder_ring self.old }
        ensures ok { IfOk result (λ _. HasFoundRoom records (writer_of self.old)
            (writer_of self.new)) }
        ensures err { IfErr result (λ refused. LacksRoom records (writer_of self.old) refused
            (writer_of self.new)) }
    {
        self.ring.room(&mut self.writer, records)
    }
}
