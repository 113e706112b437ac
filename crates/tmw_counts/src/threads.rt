ghost use Rattle.std.specs.Prelude.{◌≡◌, List, [], ◌∷◌, ◌++◌};
ghost use Rattle.tmw_counts.specs.Threads.{HasThreads};
ghost use Rattle.tmw_defs.specs.Counts.{has_two_threads};
ghost use Rattle.tmw_events.specs.declared.event.Event.{Event};

use tmw_events::Ix;

/// Of which threads a history has events: of none, of one, or of more.
#[derive(Clone, Copy, PartialEq, Eq, Debug)]
pub struct Threads {
    first: Option<Ix>,
    several: bool,
}

impl Threads {
    /// Makes what is known before the first event.
    pub const fn new() -> Threads
        ensures { HasThreads [] result }
    {
        Threads {
            first: None,
            several: false,
        }
    }

    /// Takes in an event more, of this thread.
    #[inline(always)]
    pub fn take(&mut self, thread: Ix)
        ensures { (history : List Event) (event : Event) → event.thread ≡ thread
            → HasThreads history self.old → HasThreads (history ++ event ∷ []) self.new }
    {
        match self.first {
            None => self.first = Some(thread),
            Some(first) => {
                if thread.get() != first.get() {
                    self.several = true;
                }
            }
        }
    }

    /// Tells whether there are events of two threads or more.
    pub fn several(&self) -> bool
        ensures { (history : List Event) → HasThreads history self.now
            → result ≡ has_two_threads history }
    {
        self.several
    }
}
