ghost use Rattle.std.specs.Prelude.{count_by, replicate, slice_index_or, slice_set, ◌≡◌};
ghost use Rattle.tmw_wellformed.specs.Phase.{is_live};

use crate::phase::Phase;
use tmw_events::{Ix, MOST_THREADS};

/// The phase of each thread, and how many of them have a live transaction.
#[derive(Clone, Copy, PartialEq, Eq, Debug)]
pub struct Phases {
    pub by_thread: [Phase; MOST_THREADS],
    pub live: u8,
    pub ghost counted: { live ≡ count_by is_live by_thread },
}

impl Phases {
    ghost use Rattle.tmw_wellformed.specs.declared.phase.Phase.TheVariants.{Between};

    /// Makes the phases of a history without events: each thread is between transactions.
    pub fn new() -> Phases
        ensures { result.by_thread ≡ replicate 8 Between }
    {
        Phases {
            by_thread: [Phase::Between; MOST_THREADS],
            live: 0,
        }
    }

    /// Returns the thread's phase.
    #[inline(always)]
    pub fn get(&self, thread: Ix) -> Phase
        ensures { result ≡ slice_index_or self.now.by_thread thread.number Between }
    {
        self.by_thread[thread.get() as usize]
    }

    /// Puts the thread into a phase.
    #[inline(always)]
    pub fn set(&mut self, thread: Ix, phase: Phase)
        ensures { self.new.by_thread ≡ slice_set self.old.by_thread thread.number phase }
    {
        let old = self.get(thread);
        self.by_thread[thread.get() as usize] = phase;
        self.live = self.live + u8::from(phase.is_live()) - u8::from(old.is_live());
    }
}
