//! The end of a watch, once all its recorders have come back.
ghost use Rattle.tmw_watch.specs.Shared.{AreInOrder, IsLogOf, IsSettled, WriterOf, all_of, left_of, reader_of, rest_front, rest_in};
ghost use Rattle.std.specs.Prelude.{◌≡◌, ◌+◌, ◌++◌, ◌≤◌, [], All, length, IfOk, IfErr, vec_len, vec_capacity};
ghost use Rattle.tmw_watch.specs.Close.{AreAll, IsClosed, IsJudged, IsUnclosed, writers_of};
ghost use Rattle.tmw_watch.specs.Open.{AreOf};
ghost use Rattle.tmw_watch.specs.WatchParts.{recorder_count, watch_front, watch_pump, watch_ring};

use crate::close_error::CloseError;
use crate::recorder::Recorder;
use crate::recorder_order::in_order;
use crate::report::WatchReport;
use crate::watch::Watch;
use std::sync::Arc;
use tmw_pump::Rest;
use tmw_ring::Writer;

impl Watch {
    /// Closes a watch with all its recorders, in any order, and returns how many events were recorded and the verdict
    /// on them. The recorders must be this watch's. If it can't, it gives back the watch, with them or with what they
    /// record by.
    pub fn close(self, recorders: Vec<Recorder>) -> Result<WatchReport, CloseError>
        requires { AreOf (watch_ring self).value recorders.items }
        ensures ok { IfOk result (IsClosed self recorders.items) }
        ensures err { IfErr result (IsUnclosed self recorders.items) }
    {
        let watch = self;
        let recorders = match in_order(recorders, watch.recorders as usize) {
            Ok(recorders) => recorders,
            Err(recorders) => return Err(CloseError::Missing { watch, recorders }),
        };
        let Ok(writers) = Vec::with_capacity(watch.alloc, recorders.len()) else {
            return Err(CloseError::Memory { watch, recorders });
        };
        match watch.end(recorders, writers) {
            Ok(report) => Ok(report),
            Err((watch, writers)) => Err(CloseError::Shared { watch, writers }),
        }
    }

    /// Ends the ring with all its recorders, in the order of their numbers, and judges what was recorded and not
    /// judged. It takes no memory: `room` is for the writers by which the recorders record. There is an error if the
    /// ring has an owner beside the watch and these recorders, which no call makes.
    pub fn end(
        self,
        recorders: Vec<Recorder>,
        room: Vec<Writer>,
    ) -> Result<WatchReport, (Watch, Vec<Writer>)>
        requires of_ring { AreOf (watch_ring self).value recorders.items }
        requires all { AreAll (recorder_count self) recorders.items }
        requires empty { room.items ≡ [] }
        requires room { vec_len room + length recorders.items ≤ vec_capacity room }
        ensures ok { IfOk result (IsClosed self recorders.items) }
        ensures err { IfErr result (λ back. (back.0 ≡ self)
            × (back.1.items ≡ writers_of recorders.items)) }
    {
        match self.settle(give_up(recorders, room)) {
            Ok(rest) => Ok(judge_all(rest)),
            Err(back) => Err(back),
        }
    }

    /// Returns how many recorders the watch has.
    pub fn recorders(&self) -> u64
        ensures { result ≡ recorder_count self.now }
    {
        self.recorders
    }

    /// Ends the ring, with writer i at place i.
    fn settle(self, writers: Vec<Writer>) -> Result<Rest<()>, (Watch, Vec<Writer>)>
        requires writers { All (WriterOf (watch_ring self).value) writers.items }
        requires count { length writers.items ≡ recorder_count self }
        requires order { AreInOrder writers.items }
        ensures settled { IfOk result (λ rest. IsSettled (reader_of (watch_pump self))
            writers.items (left_of (rest_in rest))) }
        ensures front { IfOk result (λ rest. rest_front (rest_in rest) ≡ watch_front self) }
        ensures one_log { IfOk result (λ rest. IsLogOf (all_of (rest_in rest)) writers.items
            (all_of (rest_in rest))) }
        ensures err { IfErr result (λ back. (back.0 ≡ self) × (back.1.items ≡ writers.items)) }
    {
        let Watch {
            alloc,
            ring,
            pump,
            recorders,
        } = self;
        match Arc::try_unwrap(ring) {
            Ok(ring) => Ok(pump.settle(ring, writers)),
            Err(ring) => Err((
                Watch {
                    alloc,
                    ring,
                    pump,
                    recorders,
                },
                writers,
            )),
        }
    }
}

/// Judges all that is left, and returns the number of all events and the verdict on them.
fn judge_all(mut rest: Rest<()>) -> WatchReport
    ensures { IsJudged (rest_in rest) result }
{
    let Ok(_) = rest.pump(u64::MAX) else {
        unreachable!();
    };
    WatchReport {
        events: rest.front().fed(),
        verdict: rest.verdict(),
    }
}

/// Takes the writers out of these recorders, which own the ring no more.
fn give_up(recorders: Vec<Recorder>, writers: Vec<Writer>) -> Vec<Writer>
    requires { vec_len writers + length recorders.items ≤ vec_capacity writers }
    ensures { result.items ≡ writers.items ++ writers_of recorders.items }
{
    let mut writers = writers;
    for recorder in recorders {
        let Recorder { ring, writer } = recorder;
        drop(ring);
        writers.push_reserved(writer);
    }
    writers
}
