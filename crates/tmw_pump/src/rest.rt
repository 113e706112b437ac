//! Judging what a settled ring has left.
ghost use Rattle.std.specs.Prelude.{◌≡◌, ◌+◌, ◌≤◌, ◌^◌, length, IfOk, OnErr, false};
ghost use Rattle.tmw_pump.specs.Keep.{StaysKept, WasKept};

use crate::front::Front;
use crate::keep::{Keep, judge_next};
use crate::pumped::Pumped;
use std::alloc::AllocError;
use tmw_defs::Verdict;
use tmw_events::Event;
use tmw_ring::Settled;

/// What a settled ring has left, to be judged after what a pump has judged of it. What `K` keeps is kept.
#[derive(Drop)]
pub struct Rest<K: Keep = Vec<Event>> {
    settled: Settled,
    front: Front,
    kept: K,
    pub ghost few: { length front.judged.items + length settled ≤ 2 ^ 40 },
    pub ghost keeps: { ∥ WasKept K.keeps front kept ∥₁ },
}

impl<K: Keep> Rest<K> {
    ghost use Rattle.tmw_pump.specs.Headline.{GivesHeadline};
    ghost use Rattle.tmw_pump.specs.Front.{TellsVerdict, WasRefusedMemory, judged_of, verdict_on};
    ghost use Rattle.tmw_pump.specs.Rest.{HasRested, IsRested, all_of, left_of, rest_front, rest_in, rest_kept};

    /// Makes the rest of a pump's settled ring.
    pub(crate) fn new(settled: Settled, front: Front, kept: K) -> Rest<K>
        requires few { length front.judged.items + length settled ≤ 2 ^ 40 }
        requires keeps { ∥ WasKept K.keeps front kept ∥₁ }
        ensures settled { result.settled ≡ settled }
        ensures front { result.front ≡ front }
        ensures kept { result.kept ≡ kept }
    {
        Rest {
            settled,
            front,
            kept,
        }
    }

    /// Judges up to `max` events: fewer only if all are judged. After a failed allocation those judged before it in this
    /// call stay judged, and the next call goes on.
    pub fn pump(&mut self, max: u64) -> Result<Pumped, AllocError>
        ensures ok { IfOk result (λ pumped. IsRested max pumped (rest_in self.old)
            (rest_in self.new)) }
        ensures idle { max ≡ 0 → (rest_in self.new ≡ rest_in self.old)
            × (rest_kept self.new ≡ rest_kept self.old) }
        ensures err { OnErr result (WasRefusedMemory max
            (λ count. HasRested count (rest_in self.old) (rest_in self.new))) }
        ensures refused { OnErr result K.refuses }
        ensures headline { GivesHeadline (rest_front (rest_in self.old)) (all_of (rest_in self.new))
            (judged_of (rest_front (rest_in self.new)))
            (verdict_on (rest_front (rest_in self.new))) }
        ensures kept { StaysKept K.keeps (rest_front (rest_in self.old))
            (rest_front (rest_in self.new)) (rest_kept self.old) (rest_kept self.new) }
    {
        for judged in 0..max {
            let next = self.kept.make_room(self.front.monitor())?;
            let Some(event) = self.settled.take() else {
                return Ok(self.front.pumped(judged));
            };
            judge_next(&mut self.front, &mut self.kept, next, event);
        }
        Ok(self.front.pumped(max))
    }

    /// Returns the judged front.
    pub fn front(&self) -> &Front
        ensures { result.now ≡ rest_front (rest_in self.now) }
    {
        &self.front
    }

    /// Tells whether an event was taken that is not judged: none ever is.
    pub fn held(&self) -> bool
        ensures { result ≡ false }
    {
        false
    }

    /// Returns the verdict on the judged front.
    pub fn verdict(&self) -> Verdict
        ensures { TellsVerdict (rest_front (rest_in self.now)) result }
    {
        self.front.verdict()
    }

    /// Returns the judged front and what is kept of it. Events not judged are given up.
    pub fn into_kept(self) -> (Front, K)
        ensures front { result.0 ≡ rest_front (rest_in self) }
        ensures kept { result.1 ≡ rest_kept self }
    {
        let Rest { front, kept, .. } = self;
        (front, kept)
    }
}

impl Rest {
    ghost use Rattle.tmw_pump.specs.Headline.{GivesHeadline};
    ghost use Rattle.tmw_pump.specs.Front.{judged_of, verdict_on};
    ghost use Rattle.tmw_pump.specs.Rest.{all_of, rest_front, rest_in};

    /// Returns the judged front: the events that were judged, in the order of the log.
    pub fn judged(&self) -> &[Event]
        ensures { result.now ≡ judged_of (rest_front (rest_in self.now)) }
    {
        self.kept.as_slice()
    }

    /// Returns the judged front and the verdict on it. Events not judged are given up.
    pub fn finish(self) -> (Vec<Event>, Verdict)
        ensures judged { result.0.items ≡ judged_of (rest_front (rest_in self)) }
        ensures verdict { result.1 ≡ verdict_on (rest_front (rest_in self)) }
        ensures headline { GivesHeadline (rest_front (rest_in self)) (all_of (rest_in self))
            result.0.items result.1 }
    {
        let verdict = self.verdict();
        (self.into_kept().1, verdict)
    }
}
