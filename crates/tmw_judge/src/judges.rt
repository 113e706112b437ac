ghost use Rattle.tmw_judge.specs.Shared.{Event};
ghost use Rattle.std.specs.Prelude.{◌<◌, ◌^◌, ℕ, [], ◌∷◌};

use crate::ending::Ending;
use crate::monitors::Monitors;
use crate::tally::Tally;
use std::marker::PhantomData;
use tmw_events::Event;

/// The monitors of a trace, and what is counted of the events that they judge, up to an ending.
#[derive(Drop)]
pub struct Judges<C, F> {
    pub monitors: Monitors,
    pub counting: C,
    pub ending: PhantomData<F>,
}

impl<C: Tally, F: Ending> Judges<C, F> {
    ghost use Rattle.tmw_judge.specs.FeedEvents.{AreFedSoMany, TakeEvents};

    /// Feeds an event to each monitor, and counts it if a verdict covers it.
    #[inline(always)]
    pub fn feed(&mut self, event: Event)
        requires { (count : ℕ) × (count < 2 ^ 40) × AreFedSoMany C.counts self.old count }
        ensures { TakeEvents C.counts self.old (event ∷ []) self.new }
    {
        if C::feed(&mut self.monitors, event) {
            self.counting.take(event);
        }
    }
}
