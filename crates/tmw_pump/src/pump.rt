//! Judging the events of a running ring.
ghost use Rattle.tmw_pump.specs.Shared.{Event, Fits, ReaderOf, Rules, WriterOf, verdict_of};
ghost use Rattle.std.specs.Prelude.{◌≡◌, List, [], ◌∷◌, length, All, IfOk, OnErr, false};
ghost use Rattle.tmw_pump.specs.WasFed.{JudgesOpacity, WasFed};
ghost use Rattle.tmw_pump.specs.Keep.{IsKept, StaysKept, WasKept};
ghost use Rattle.tmw_ring.specs.Meet.{HaveMet};
ghost use Rattle.tmw_ring.specs.Settle.{AreInOrder, IsSettled};

use crate::front::Front;
use crate::keep::{Keep, judge_next};
use crate::pumped::Pumped;
use crate::rest::Rest;
use std::alloc::{AllocError, Global};
use tmw_defs::Verdict;
use tmw_events::Event;
use tmw_monitor::Monitor;
use tmw_ring::{Reader, Ring, Writer};

/// A pump that takes events from a running ring and judges them, by the definition of opacity (Guerraoui and Kapalka
/// 2008, section 5) at each prefix. What it has judged is a beginning of the ring's one log: what its reader has
/// taken. It keeps of that what `K` keeps: a `Pump` all of it, and a `Pump<()>` nothing, so that its memory is the
/// monitor's, however long the run, and no call of it lacks any.
#[derive(Drop)]
pub struct Pump<K: Keep = Vec<Event>> {
    reader: Reader,
    front: Front,
    kept: K,
    // The reader has taken what was judged.
    pub ghost all: { front.judged.items ≡ reader.taken },
    pub ghost keeps: { ∥ WasKept K.keeps front kept ∥₁ },
}

impl<K: Keep> Pump<K> {
    ghost use Rattle.tmw_pump.specs.Headline.{IsLogOf, GivesHeadline};
    ghost use Rattle.tmw_pump.specs.Front.{TellsVerdict, WasRefusedMemory, judged_of, monitor_of, verdict_on};
    ghost use Rattle.tmw_pump.specs.Pump.{HasPumped, IsPumped, pump_front, pump_in, pump_kept, reader_of};
    ghost use Rattle.tmw_pump.specs.Rest.{all_of, left_of, rest_front, rest_in, rest_kept};

    /// Makes a pump of a reader that has taken nothing, a monitor by opacity that was fed nothing, and what is kept of
    /// nothing.
    pub fn keeping(kept: K, reader: Reader, monitor: Monitor) -> Pump<K>
        requires taken { reader.taken ≡ [] }
        requires opacity { JudgesOpacity monitor }
        requires fed { WasFed [] monitor }
        requires kept { (rules : Rules) → Fits rules [] monitor
            → K.keeps rules [] (verdict_of monitor) kept }
        ensures reader { reader_of (pump_in result) ≡ reader }
        ensures judged { judged_of (pump_front (pump_in result)) ≡ [] }
        ensures monitor { monitor_of (pump_front (pump_in result)) ≡ monitor }
        ensures kept { pump_kept result ≡ kept }
        ensures keeps { (rules : Rules) → Fits rules [] monitor
            → IsKept K.keeps rules (pump_front (pump_in result)) (pump_kept result) }
    {
        Pump {
            reader,
            front: Front::new(monitor),
            kept,
        }
    }

    /// Takes and judges up to `max` events: fewer only if the next place is not published. Room is made before an event
    /// is taken, so after a failed allocation all that was taken is judged.
    pub fn pump(&mut self, ring: &Ring, max: u64) -> Result<Pumped, AllocError>
        requires { ReaderOf ring.now (reader_of (pump_in self.old)) }
        ensures of_ring { ReaderOf ring.now (reader_of (pump_in self.new)) }
        ensures ok { IfOk result (λ pumped. IsPumped max pumped (pump_in self.old)
            (pump_in self.new)) }
        ensures idle { max ≡ 0 → (pump_in self.new ≡ pump_in self.old)
            × (pump_kept self.new ≡ pump_kept self.old) }
        ensures err { OnErr result (WasRefusedMemory max
            (λ count. HasPumped count (pump_in self.old) (reader_of (pump_in self.new))
            (pump_front (pump_in self.new)))) }
        ensures refused { OnErr result K.refuses }
        ensures headline { GivesHeadline (pump_front (pump_in self.old))
            (reader_of (pump_in self.new)).taken (judged_of (pump_front (pump_in self.new)))
            (verdict_on (pump_front (pump_in self.new))) }
        ensures kept { StaysKept K.keeps (pump_front (pump_in self.old))
            (pump_front (pump_in self.new)) (pump_kept self.old) (pump_kept self.new) }
    {
        for judged in 0..max {
            let next = self.kept.make_room(self.front.monitor())?;
            let Some(event) = ring.take(&mut self.reader) else {
                return Ok(self.front.pumped(judged));
            };
            judge_next(&mut self.front, &mut self.kept, next, event);
        }
        Ok(self.front.pumped(max))
    }

    /// Returns the judged front.
    pub fn front(&self) -> &Front
        ensures { result.now ≡ pump_front (pump_in self.now) }
    {
        &self.front
    }

    /// Returns what is kept of the judged front.
    pub fn kept(&self) -> &K
        ensures { result.now ≡ pump_kept self.now }
    {
        &self.kept
    }

    /// Tells whether an event was taken that is not judged: none ever is.
    pub fn held(&self) -> bool
        ensures { result ≡ false }
    {
        false
    }

    /// Returns the verdict on the judged front.
    pub fn verdict(&self) -> Verdict
        ensures { TellsVerdict (pump_front (pump_in self.now)) result }
    {
        self.front.verdict()
    }

    /// Lets the reader meet a writer: the writer's next event comes after all that both had seen. Nothing is judged.
    pub fn meet(&mut self, ring: &Ring, writer: &mut Writer)
        requires reader { ReaderOf ring.now (reader_of (pump_in self.old)) }
        requires writer { WriterOf ring.now writer.old }
        ensures met { HaveMet writer.old writer.new (reader_of (pump_in self.old))
            (reader_of (pump_in self.new)) }
        ensures same { pump_front (pump_in self.new) ≡ pump_front (pump_in self.old) }
        ensures kept { pump_kept self.new ≡ pump_kept self.old }
        ensures one_log { (log : List Event)
            × IsLogOf log (writer.new ∷ []) (reader_of (pump_in self.new)).taken }
    {
        ring.meet(writer, &mut self.reader);
    }

    /// Ends the ring once all its writers have come back, writer i at place i. What was not taken is left to be
    /// judged.
    pub fn settle(self, ring: Ring, writers: Vec<Writer>) -> Rest<K>
        requires reader { ReaderOf ring (reader_of (pump_in self)) }
        requires writers { All (WriterOf ring) writers.items }
        requires count { length writers.items ≡ ring.size.writers }
        requires order { AreInOrder writers.items }
        ensures settled { IsSettled (reader_of (pump_in self)) writers.items
            (left_of (rest_in result)) }
        ensures front { rest_front (rest_in result) ≡ pump_front (pump_in self) }
        ensures kept { rest_kept result ≡ pump_kept self }
        ensures one_log { IsLogOf (all_of (rest_in result)) writers.items
            (all_of (rest_in result)) }
    {
        let Pump {
            reader,
            front,
            kept,
        } = self;
        Rest::new(ring.settle(reader, writers), front, kept)
    }
}

impl Pump {
    ghost use Rattle.tmw_pump.specs.Front.{judged_of, monitor_of};
    ghost use Rattle.tmw_pump.specs.Pump.{pump_front, pump_in, reader_of};

    /// Makes a pump of a reader that has taken nothing, and a monitor by opacity that was fed nothing. It keeps what
    /// it judges.
    pub fn new(alloc: Global, reader: Reader, monitor: Monitor) -> Pump
        requires taken { reader.taken ≡ [] }
        requires opacity { JudgesOpacity monitor }
        requires fed { WasFed [] monitor }
        ensures reader { reader_of (pump_in result) ≡ reader }
        ensures judged { judged_of (pump_front (pump_in result)) ≡ [] }
        ensures monitor { monitor_of (pump_front (pump_in result)) ≡ monitor }
    {
        Pump::keeping(Vec::new(alloc), reader, monitor)
    }

    /// Returns the judged front: the events that were judged, in the order of the log.
    pub fn judged(&self) -> &[Event]
        ensures { result.now ≡ judged_of (pump_front (pump_in self.now)) }
    {
        self.kept.as_slice()
    }
}
