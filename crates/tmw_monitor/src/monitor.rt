ghost use Rattle.tmw_monitor.specs.Shared.{Event, IsVerdict, Opacity, Rules, is_cut, members, zeros};
ghost use Rattle.std.specs.Prelude.{IfOk, IsTrue, List, Ok, [], length, ◌<◌, ◌^◌, ◌↔◌, ◌≡◌};

use crate::broken_rule::{BrokenRule, follow};
use crate::history_digest::HistoryDigest;
use crate::is_so_far::is_so_far;
use crate::next_wrong::next_wrong;
use crate::take_at_once::take_at_once;
use std::alloc::{AllocError, Global};
use tmw_cuts::{State, States, Window};
use tmw_defs::{Criterion, Verdict};
use tmw_events::{Event, MOST_REGISTERS, Registers};
use tmw_options::Bounds;
use tmw_search::EndSet;
use tmw_witness::Witness;

/// A judge of a history as its events come, by the definition of its criterion at each of its prefixes: opacity
/// (Guerraoui and Kapalka 2008, section 5) or strict serializability (Papadimitriou 1979). It keeps no event: only
/// the outcomes at the last cut and the transactions since, and neither after a final verdict.
#[derive(Debug, Drop)]
pub struct Monitor {
    criterion: Criterion,
    pub(crate) bounds: Bounds,
    pub(crate) count: u64,
    pub(crate) verdict: Verdict,
    pub(crate) kept: HistoryDigest,
    /// The first event that fits no run. Until one comes, the window follows each event, after a final verdict too.
    broken: Option<BrokenRule>,
}

impl Monitor {
    ghost use Rattle.tmw_monitor.specs.BrokenRule.{TellsBroken};
    ghost use Rattle.tmw_monitor.specs.Fits.{Concludes, FeedsOne, Fits, rules_for, rules_of};
    ghost use Rattle.tmw_monitor.specs.HoldsOpen.{AreLastOutcomes, HoldsWith, KeepsOnlyOpen};
    ghost use Rattle.tmw_monitor.specs.Monitor.{IsOpen, criterion_of, fed_of, verdict_of};

    /// Makes a monitor that judges by opacity a run whose registers all begin at 0, before its first event.
    pub fn new(alloc: Global, registers: Registers, bounds: Bounds) -> Result<Monitor, AllocError>
        ensures fits { IfOk result (λ monitor. Fits (rules_of registers zeros bounds) [] monitor) }
        ensures keeps { IfOk result (λ monitor. KeepsOnlyOpen (rules_of registers zeros bounds) []
            monitor) }
        ensures criterion { IfOk result (λ monitor. criterion_of monitor ≡ Opacity) }
    {
        Monitor::new_from(alloc, registers, [0; MOST_REGISTERS], bounds)
    }

    /// Makes a monitor that judges by opacity a run whose registers begin with these values, before its first event.
    /// Those that the run does not have are to be 0.
    pub fn new_from(
        alloc: Global,
        registers: Registers,
        start: State,
        bounds: Bounds,
    ) -> Result<Monitor, AllocError>
        ensures fits { IfOk result (λ monitor. Fits (rules_of registers start bounds) [] monitor) }
        ensures keeps { IfOk result (λ monitor. KeepsOnlyOpen (rules_of registers start bounds) []
            monitor) }
        ensures criterion { IfOk result (λ monitor. criterion_of monitor ≡ Opacity) }
    {
        Monitor::for_criterion(alloc, Criterion::Opacity, registers, start, bounds)
    }

    /// Makes a monitor that judges by this criterion a run whose registers begin with these values, before its first
    /// event. Those that the run does not have are to be 0.
    pub fn for_criterion(
        alloc: Global,
        criterion: Criterion,
        registers: Registers,
        start: State,
        bounds: Bounds,
    ) -> Result<Monitor, AllocError>
        ensures fits { IfOk result (λ monitor. Fits (rules_for criterion registers start bounds) []
            monitor) }
        ensures keeps { IfOk result (λ monitor. KeepsOnlyOpen
            (rules_for criterion registers start bounds) [] monitor) }
        ensures criterion { IfOk result (λ monitor. criterion_of monitor ≡ criterion) }
    {
        let states = States::only(alloc, start)?;
        let found = EndSet::none(alloc, bounds.states)?;
        Ok(Monitor {
            criterion,
            bounds,
            count: 0,
            verdict: criterion.so_far(),
            kept: HistoryDigest {
                states,
                found,
                window: Window::open(registers),
                witness: Witness::new(start),
            },
            broken: None,
        })
    }

    /// Takes the next event and returns the verdict on all events so far. A verdict that something is wrong is final.
    /// It takes no memory, so it always succeeds.
    #[inline(always)]
    pub fn feed(&mut self, event: Event) -> Result<Verdict, AllocError>
        requires room { fed_of self.old < 2 ^ 40 }
        ensures ok { result ≡ Ok (verdict_of self.new) }
        ensures feeds { FeedsOne event self.old self.new }
        ensures stays { (IsOpen self.old → ⊥) → verdict_of self.new ≡ verdict_of self.old }
        ensures criterion { criterion_of self.new ≡ criterion_of self.old }
        ensures keeps { HoldsWith event self.old self.new }
    {
        Ok(self.take(event))
    }

    /// Takes the next event and returns the verdict on all events so far. A verdict that something is wrong is final.
    #[inline(always)]
    pub fn take(&mut self, event: Event) -> Verdict
        requires room { fed_of self.old < 2 ^ 40 }
        ensures feeds { FeedsOne event self.old self.new }
        ensures stays { (IsOpen self.old → ⊥) → verdict_of self.new ≡ verdict_of self.old }
        ensures criterion { criterion_of self.new ≡ criterion_of self.old }
        ensures keeps { HoldsWith event self.old self.new }
        ensures verdict { result ≡ verdict_of self.new }
    {
        // A serial order is known only while nothing is wrong.
        if self.kept.witness.is_known() && take_at_once(&mut self.kept, &self.bounds, event) {
            self.count += 1;
            return self.verdict;
        }
        self.take_copy(event);
        self.verdict
    }

    /// Takes the next event, whatever it needs: the call gets a copy, so that the event mostly stays in registers of the processor.
    #[inline(always)]
    fn take_copy(&mut self, event: Event)
        requires room { fed_of self.old < 2 ^ 40 }
        ensures feeds { FeedsOne event self.old self.new }
        ensures stays { (IsOpen self.old → ⊥) → verdict_of self.new ≡ verdict_of self.old }
        ensures criterion { criterion_of self.new ≡ criterion_of self.old }
        ensures keeps { HoldsWith event self.old self.new }
    {
        let copied = Event {
            thread: event.thread,
            kind: event.kind,
        };
        self.take_whole(copied);
    }

    /// Takes the next event, whatever it needs. The verdict is then in the monitor.
    #[cold]
    #[inline(never)]
    fn take_whole(&mut self, event: Event)
        requires room { fed_of self.old < 2 ^ 40 }
        ensures feeds { FeedsOne event self.old self.new }
        ensures stays { (IsOpen self.old → ⊥) → verdict_of self.new ≡ verdict_of self.old }
        ensures criterion { criterion_of self.new ≡ criterion_of self.old }
        ensures keeps { HoldsWith event self.old self.new }
    {
        let at = self.count + 1;
        self.count = at;
        // Each prefix is judged, so a verdict that something is wrong is final. Later events are only tracked.
        if !is_so_far(self.criterion, self.verdict) {
            follow(&mut self.kept.window, &mut self.broken, at, event);
            return;
        }
        let wrong = next_wrong(
            self.criterion,
            &mut self.kept,
            self.bounds,
            at,
            event,
            &mut self.broken,
        );
        self.conclude(wrong);
    }

    /// Takes the verdict, if something is wrong: it is final, and no event needs what was kept.
    pub(crate) fn conclude(&mut self, wrong: Option<Verdict>)
        ensures { Concludes wrong self.old self.new }
    {
        if let Some(verdict) = wrong {
            self.kept.forget();
            self.verdict = verdict;
        }
    }

    /// Returns what the history is judged by.
    pub fn criterion(&self) -> Criterion
        ensures shown { result ≡ criterion_of self.now }
        ensures fits { (rules : Rules) (history : List Event) → Fits rules history self.now
            → result ≡ rules.criterion }
    {
        self.criterion
    }

    /// Returns how many registers the run has. The result counts only if nothing is wrong with the history.
    pub fn registers(&self) -> Registers
        ensures { (rules : Rules) (history : List Event) → Fits rules history self.now
            → IsOpen self.now → result.number ≡ rules.registers }
    {
        self.kept.window.registers
    }

    /// Returns how many events were taken.
    pub fn fed(&self) -> u64
        ensures shown { result ≡ fed_of self.now }
        ensures fits { (rules : Rules) (history : List Event) → Fits rules history self.now
            → result ≡ length history }
    {
        self.count
    }

    /// Returns the verdict on the events taken.
    pub fn verdict(&self) -> Verdict
        ensures shown { result ≡ verdict_of self.now }
        ensures fits { (rules : Rules) (history : List Event) → Fits rules history self.now
            → IsVerdict rules history result }
    {
        self.verdict
    }

    /// Returns the first event that fits no run, if one was taken: also after a final verdict.
    pub fn broken(&self) -> Option<BrokenRule>
        ensures { (rules : Rules) (history : List Event) → Fits rules history self.now
            → TellsBroken rules.registers history result }
    {
        self.broken
    }

    /// Tells whether nothing is wrong with the events taken, so that what follows is judged too.
    #[inline(always)]
    pub fn is_open(&self) -> bool
        ensures { IsTrue result ↔ IsOpen self.now }
    {
        is_so_far(self.criterion, self.verdict)
    }

    /// Tells whether each transaction of the history has ended. The result counts only if nothing is wrong with the
    /// history.
    pub fn is_at_cut(&self) -> bool
        ensures { (rules : Rules) (history : List Event) → Fits rules history self.now
            → IsOpen self.now → (IsTrue result ↔ IsTrue (is_cut history)) }
    {
        self.kept.window.is_cut()
    }

    /// Returns the history's outcomes at its last cut, in rising order, at most 64. After a final verdict there are
    /// none.
    pub fn outcomes(&self) -> &States
        ensures last { (rules : Rules) (history : List Event) → Fits rules history self.now
            → IsOpen self.now → AreLastOutcomes rules history (members result.now) }
        ensures none { (rules : Rules) (history : List Event) → Fits rules history self.now
            → (IsOpen self.now → ⊥) → members result.now ≡ [] }
    {
        &self.kept.states
    }
}
