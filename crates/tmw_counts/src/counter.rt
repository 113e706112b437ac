ghost use Rattle.std.specs.Prelude.{◌≡◌, ◌+◌, ◌<◌, ◌-◌, ◌^◌, ℕ, Bool, true, false, Some, None, List, [], ◌∷◌, ◌++◌, length, IfOk, IfErr, OnErr, max};
ghost use Rattle.tmw_counts.specs.Counter.{CountsSo, IsStep, aborts, commits, held, meets, one_if};
ghost use Rattle.tmw_counts.specs.Summary.{IsSummary};
ghost use Rattle.tmw_events.specs.declared.event.Event.{Event};
ghost use Rattle.tmw_wellformed.specs.Faults.{Refuses};

use crate::summary::Summary;
use crate::threads::Threads;
use tmw_defs::Counts;
use tmw_events::{Event, Registers};
use tmw_wellformed::{End, Malformed, Note, Tracker};

/// Counts what a history has shown, event by event, and refuses each event that would make it ill-formed. It holds no event.
#[derive(Clone, Copy, PartialEq, Eq, Debug)]
pub struct Counter {
    tracker: Tracker,
    counts: Counts,
    // How many transactions there were at the last cut.
    before: u64,
    // Whether a live transaction overlaps none: then it is the only live one.
    apart: bool,
    threads: Threads,
}

impl Counter {
    /// Makes a counter for a run with so many registers, before its first event.
    pub fn new(registers: Registers) -> Counter
        ensures { CountsSo registers.number [] result }
    {
        Counter {
            tracker: Tracker::new(registers),
            counts: Counts {
                aborted: 0,
                committed: 0,
                cuts: 0,
                live: 0,
                overlapping: 0,
                transactions: 0,
                unasked: 0,
                widest: 0,
            },
            before: 0,
            apart: false,
            threads: Threads::new(),
        }
    }

    /// Counts the next event where the history stays well-formed with it. A refusal changes nothing, and names the first of the
    /// faults that the event has. A history of 2^64 - 1 events or more is not counted right.
    #[inline(always)]
    pub fn take(&mut self, event: Event) -> Result<(), Malformed>
        ensures takes { IfOk result (λ _. (registers : ℕ) (history : List Event)
            → length history < 2 ^ 64 - 1 → CountsSo registers history self.old
            → CountsSo registers (history ++ event ∷ []) self.new) }
        ensures refuses { IfErr result (λ fault. (registers : ℕ) (history : List Event)
            → CountsSo registers history self.old → Refuses registers history event fault) }
        ensures kept { OnErr result (self.new ≡ self.old) }
    {
        let others = self.tracker.live() > 0;
        let asked = self.tracker.asks_abort(event.thread);
        let note = self.tracker.step(event)?;
        let live = self.tracker.live();
        // Most events are in the midst of a transaction, and change no count.
        if note.begins {
            self.threads.take(event.thread);
            self.count_begin(others, live);
            return Ok(());
        }
        match note.ends {
            Some(end) => self.count_end(end, others, asked, live),
            None => {}
        }
        Ok(())
    }

    /// Returns what the history so far has shown.
    pub fn summary(&self) -> Summary
        ensures { (registers : ℕ) (history : List Event) → CountsSo registers history self.now
            → IsSummary history result }
    {
        Summary {
            counts: self.counts,
            none_overlapped: self.threads.several() && self.counts.overlapping == 0,
        }
    }

    /// Counts an event that the tracker has taken, after which so many transactions are live. Before it, other transactions were live
    /// or not, and its thread's pending call was an abort request or not.
    #[inline(always)]
    fn count(&mut self, note: Note, others: bool, asked: bool, live: u8)
        ensures { IsStep note others asked live self.old self.new }
    {
        let met = self.met(note.begins, others);
        self.counts.aborted = add_if(self.counts.aborted, aborts(note.ends));
        self.counts.committed = add_if(self.counts.committed, commits(note.ends));
        self.counts.live = u64::from(live);
        self.counts.overlapping = self.counts.overlapping.saturating_add(met);
        self.counts.transactions = add_if(self.counts.transactions, note.begins);
        self.counts.unasked = add_if(self.counts.unasked, aborts(note.ends) && !asked);
        if note.begins {
            let open = self.counts.transactions.saturating_sub(self.before);
            raise(&mut self.counts.widest, open);
        }
        if live == 0 {
            self.counts.cuts = add_if(self.counts.cuts, true);
            self.before = self.counts.transactions;
            self.apart = false;
        }
        if note.begins {
            self.apart = !others;
        }
    }

    /// Counts the first event of a transaction, as `count` does. It is called.
    #[inline(never)]
    fn count_begin(&mut self, others: bool, live: u8)
        ensures { (asked : Bool) → IsStep (record { begins = true; ends = None }) others asked live
            self.old self.new }
    {
        let note = Note {
            begins: true,
            ends: None,
        };
        self.count(note, others, false, live);
    }

    /// Counts the last event of a transaction, as `count` does. It is called.
    #[inline(never)]
    fn count_end(&mut self, end: End, others: bool, asked: bool, live: u8)
        ensures { IsStep (record { begins = false; ends = Some end }) others asked live self.old
            self.new }
    {
        let note = Note {
            begins: false,
            ends: Some(end),
        };
        self.count(note, others, asked, live);
    }

    /// How many transactions overlap another from this event on: the one that it begins where others are live, and then the one
    /// that overlapped none.
    #[inline(always)]
    fn met(&self, begins: bool, others: bool) -> u64
        ensures { result ≡ meets begins others self.now.apart }
    {
        if begins && others {
            1 + u64::from(self.apart)
        } else {
            0
        }
    }
}

/// Adds one to a count, if there is one more. The greatest number of 64 bits stays.
#[inline(always)]
fn add_if(count: u64, more: bool) -> u64
    ensures { result ≡ held (count + one_if more) }
{
    if more { count.saturating_add(1) } else { count }
}

/// Makes the count this one, if that is more.
#[inline(always)]
fn raise(count: &mut u64, other: u64)
    ensures { count.new ≡ max count.old other }
{
    if *count < other {
        *count = other;
    }
}

#[inline(always)]
const fn commits(ends: Option<End>) -> bool
    ensures { result ≡ commits ends }
{
    match ends {
        Some(End::Commit) => true,
        _ => false,
    }
}

#[inline(always)]
const fn aborts(ends: Option<End>) -> bool
    ensures { result ≡ aborts ends }
{
    match ends {
        Some(End::Abort) => true,
        _ => false,
    }
}
