ghost use Rattle.tmw_monitor.specs.Shared.{Begin, End, Event, IsNext, IsVerdict, Opacity, Rules, StandsFor, Strict, count_of, is_cut, members};
ghost use Rattle.std.specs.Prelude.{IfOk, IsFalse, IsTrue, List, [], length, ◌++◌, ◌<◌, ◌^◌, ◌↔◌, ◌∷◌, ◌≡◌};
ghost use Rattle.tmw_monitor.specs.declared.outcome_check.OutcomeCheck.TheVariants.{Outcome};

use crate::broken_rule::BrokenRule;
use crate::monitor::Monitor;
use crate::outcome_check::OutcomeCheck;
use crate::search_or_close::{close_forced, close_opaquely, close_strictly, search};
use crate::take::take_open;
use crate::take_at_once::take_at_once;
use std::alloc::{AllocError, Global};
use tmw_cuts::{Move, State, States};
use tmw_defs::{Criterion, Verdict};
use tmw_events::{Event, Ix, Registers};
use tmw_options::Bounds;

/// Tells whether both criteria have found outcomes at a cut, and the same.
fn closes_alike(
    opacity: OutcomeCheck,
    outcomes: &States,
    strict: OutcomeCheck,
    strict_outcomes: &States,
) -> bool
    ensures one { IsTrue result → opacity ≡ Outcome }
    ensures other { IsTrue result → strict ≡ Outcome }
    ensures same { IsTrue result → members outcomes.now ≡ members strict_outcomes.now }
    ensures all { opacity ≡ Outcome → strict ≡ Outcome
        → members outcomes.now ≡ members strict_outcomes.now → IsTrue result }
{
    match (opacity, strict) {
        (OutcomeCheck::Outcome, OutcomeCheck::Outcome) => {
            outcomes.states() == strict_outcomes.states()
        }
        _ => false,
    }
}

/// A judge of a history as its events come, by opacity and by strict serializability at once. What is opaque is strictly
/// serializable, and mostly both criteria find the same outcomes at a cut: while they do, what is kept by opacity serves both.
#[derive(Debug, Drop)]
pub struct BothMonitor {
    opacity: Monitor,
    /// While one serves both, what it counts and keeps is of no account.
    strict: Monitor,
    shared: bool,
}

impl BothMonitor {
    ghost use Rattle.tmw_monitor.specs.BothMonitor.{Agree, FeedsBoth, FitEach, FitsBoth, Parts, by, opacity_of, strict_of};
    ghost use Rattle.tmw_events.specs.declared.ix.Ix.{Ix};
    ghost use Rattle.tmw_monitor.specs.BrokenRule.{TellsBroken};
    ghost use Rattle.tmw_monitor.specs.Fits.{rules_of};
    ghost use Rattle.tmw_monitor.specs.Monitor.{bounds_of, fed_of, kept_of, verdict_of};

    /// Makes a monitor that judges by both criteria a run whose registers begin with these values, before its first event.
    /// Those that the run does not have are to be 0.
    pub fn new(
        alloc: Global,
        registers: Registers,
        start: State,
        bounds: Bounds,
    ) -> Result<BothMonitor, AllocError>
        ensures { IfOk result (FitsBoth (rules_of registers start bounds) []) }
    {
        let opacity = Monitor::for_criterion(alloc, Criterion::Opacity, registers, start, bounds)?;
        let strict = Monitor::for_criterion(alloc, Criterion::Strict, registers, start, bounds)?;
        let mut both = BothMonitor {
            opacity,
            strict,
            shared: false,
        };
        both.join();
        Ok(both)
    }

    /// Takes the next event. A verdict that something is wrong is final.
    #[inline(always)]
    pub fn take(&mut self, event: Event)
        requires room { fed_of (opacity_of self.old) < 2 ^ 40 }
        requires room_strictly { fed_of (strict_of self.old) < 2 ^ 40 }
        ensures { FeedsBoth event self.old self.new }
    {
        // A serial order is known only while nothing is wrong.
        if self.shared
            && self.opacity.kept.witness.is_known()
            && take_at_once(&mut self.opacity.kept, &self.opacity.bounds, event)
        {
            self.opacity.count += 1;
            return;
        }
        // The call gets a copy, so that the event mostly stays in registers of the processor.
        let copied = Event {
            thread: event.thread,
            kind: event.kind,
        };
        self.take_whole(copied);
    }

    /// Takes the next event, whatever it needs.
    #[cold]
    #[inline(never)]
    fn take_whole(&mut self, event: Event)
        requires room { fed_of (opacity_of self.old) < 2 ^ 40 }
        requires room_strictly { fed_of (strict_of self.old) < 2 ^ 40 }
        ensures { FeedsBoth event self.old self.new }
    {
        if self.shared {
            self.take_shared(event);
        } else {
            self.take_each(event);
        }
    }

    /// Takes an event where one serves both, whatever it needs.
    fn take_shared(&mut self, event: Event)
        requires room { fed_of (opacity_of self.old) < 2 ^ 40 }
        requires shared { IsTrue self.old.shared }
        ensures { FeedsBoth event self.old self.new }
    {
        if let Ok(step) = self.opacity.kept.window.next(event) {
            if self.goes_on(step) {
                self.go_on(event, step);
                return;
            }
            if let Move::End(place) = step {
                self.close(event, place);
                return;
            }
        }
        self.part();
        self.take_each(event);
    }

    /// Takes an event where each criterion has a monitor of its own. One may serve both afterwards.
    fn take_each(&mut self, event: Event)
        requires room { fed_of self.old.opacity < 2 ^ 40 }
        requires room_strictly { fed_of self.old.strict < 2 ^ 40 }
        ensures { (rules : Rules) (history : List Event) → FitEach rules history self.old
            → FitsBoth rules (history ++ event ∷ []) self.new }
    {
        self.opacity.take(event);
        self.strict.take(event);
        self.join();
    }

    /// Tells whether the next event, which is this to its thread, leads to no cut, and begins no transaction that the window has no room
    /// for.
    fn goes_on(&self, step: Move) -> bool
        ensures room { IsTrue result → step ≡ Begin
            → count_of (kept_of (opacity_of self.now)).window < (bounds_of (opacity_of self.now)).window }
        ensures uncut { IsTrue result → (event : Event) (events : List Event)
            → StandsFor (kept_of (opacity_of self.now)).window events
            → IsNext (kept_of (opacity_of self.now)).window event step
            → IsFalse (is_cut (events ++ event ∷ [])) }
        ensures cut { IsFalse result → (place : Ix) → step ≡ End place
            → (event : Event) (events : List Event)
            → StandsFor (kept_of (opacity_of self.now)).window events
            → IsNext (kept_of (opacity_of self.now)).window event step
            → IsTrue (is_cut (events ++ event ∷ [])) }
    {
        let window = &self.opacity.kept.window;
        match step {
            Move::Begin => window.count() < self.opacity.bounds.window,
            Move::End(place) => !window.is_cut_with(place),
            Move::Ask(_) | Move::Answer(_, _) => true,
        }
    }

    /// Takes an event at no cut in what is kept for both.
    fn go_on(&mut self, event: Event, step: Move)
        requires next { IsNext (kept_of (opacity_of self.old)).window event step }
        requires room { step ≡ Begin
            → count_of (kept_of (opacity_of self.old)).window < (bounds_of (opacity_of self.old)).window }
        requires uncut { (events : List Event)
            → StandsFor (kept_of (opacity_of self.old)).window events
            → IsFalse (is_cut (events ++ event ∷ [])) }
        requires fed { fed_of (opacity_of self.old) < 2 ^ 40 }
        requires shared { IsTrue self.old.shared }
        ensures { FeedsBoth event self.old self.new }
    {
        let at = self.opacity.count + 1;
        self.opacity.count = at;
        let found = take_open(Criterion::Opacity, &mut self.opacity.kept, event, step);
        let wrong = found.wrong(at);
        if wrong.is_none() {
            return;
        }
        self.part();
        self.opacity.conclude(wrong);
        self.strict.kept.witness.forget();
        let found = search(Criterion::Strict, &mut self.strict.kept);
        self.strict.conclude(found.wrong(at));
    }

    /// Takes an event at a cut, which ends the transaction at the place.
    fn close(&mut self, event: Event, place: Ix)
        requires next { IsNext (kept_of (opacity_of self.old)).window event (End place) }
        requires cut { (events : List Event)
            → StandsFor (kept_of (opacity_of self.old)).window events
            → IsTrue (is_cut (events ++ event ∷ [])) }
        requires room { fed_of (opacity_of self.old) < 2 ^ 40 }
        requires shared { IsTrue self.old.shared }
        ensures { FeedsBoth event self.old self.new }
    {
        let (at, cap) = (self.opacity.count + 1, self.opacity.bounds.states);
        self.opacity.count = at;
        let (kept, strict) = (&mut self.opacity.kept, &mut self.strict.kept);
        kept.window.end(event, place);
        kept.witness.follow(&kept.window, event, Move::End(place));
        if close_forced(kept, cap) {
            return;
        }
        let strictly = close_strictly(kept, &mut strict.states, &mut strict.found, cap);
        let found = close_opaquely(kept, &strict.states, strictly, cap);
        if closes_alike(found, &kept.states, strictly, &strict.states) {
            return;
        }
        self.shared = false;
        self.strict.count = at;
        self.strict.kept.open(self.opacity.kept.window.registers);
        self.opacity.conclude(found.wrong(at));
        self.strict.conclude(strictly.wrong(at));
    }

    /// Gives each criterion a monitor of its own.
    fn part(&mut self)
        ensures { Parts self.old self.new }
    {
        self.shared = false;
        self.strict.count = self.opacity.count;
        self.strict.kept.copy_from(&self.opacity.kept);
    }

    /// Lets one monitor serve both, if both have found nothing wrong, and the same outcomes at the last cut.
    fn join(&mut self)
        ensures { (rules : Rules) (history : List Event) → FitEach rules history self.old
            → FitsBoth rules history self.new }
    {
        self.shared = self.agree();
    }

    /// Tells whether both have found nothing wrong, and the same outcomes at the last cut.
    fn agree(&self) -> bool
        ensures { IsTrue result ↔ Agree self.now }
    {
        if !self.opacity.is_open() || !self.strict.is_open() {
            return false;
        }
        self.opacity.kept.states.states() == self.strict.kept.states.states()
    }

    /// Returns how many events were taken.
    pub fn fed(&self) -> u64
        ensures shown { result ≡ fed_of (opacity_of self.now) }
        ensures fits { (rules : Rules) (history : List Event) → FitsBoth rules history self.now
            → result ≡ length history }
    {
        self.opacity.count
    }

    /// Returns the verdict by opacity on the events taken.
    #[inline(always)]
    pub fn opacity(&self) -> Verdict
        ensures shown { result ≡ verdict_of (opacity_of self.now) }
        ensures fits { (rules : Rules) (history : List Event) → FitsBoth rules history self.now
            → IsVerdict (by Opacity rules) history result }
    {
        self.opacity.verdict
    }

    /// Returns the verdict by strict serializability on the events taken.
    #[inline(always)]
    pub fn strict(&self) -> Verdict
        ensures shown { result ≡ verdict_of (strict_of self.now) }
        ensures fits { (rules : Rules) (history : List Event) → FitsBoth rules history self.now
            → IsVerdict (by Strict rules) history result }
    {
        self.strict.verdict
    }

    /// Returns the first event that fits no run, if one was taken: also after a final verdict.
    pub fn broken(&self) -> Option<BrokenRule>
        ensures { (rules : Rules) (history : List Event) → FitsBoth rules history self.now
            → TellsBroken rules.registers history result }
    {
        self.opacity.broken()
    }
}
