//! The monitors that judge a trace: one for each requested criterion.
ghost use Rattle.tmw_judge.specs.Shared.{Asked, Bounds, Event, Fits, Header, Rules, TellsBroken, counted_by};
ghost use Rattle.std.specs.Prelude.{◌≡◌, ◌==◌, List, [], IfOk};
ghost use Rattle.tmw_judge.specs.Tally.{TellsCovered, any_open, verdicts_of};
ghost use Rattle.tmw_judge.specs.FeedEvents.{FeedsEach};
ghost use Rattle.tmw_judge.specs.Judge.{AreFed, AreReports, HaveRoom, IsReportOn, trace_rules};

use crate::by_criterion::ByCriterion;
use crate::report::Report;
use std::alloc::{AllocError, Global};
use tmw_counts::{counted_by, is_open};
use tmw_defs::{Asked, Criterion, Verdict};
use tmw_events::Event;
use tmw_monitor::{BothMonitor, Bounds, BrokenRule, Monitor};
use tmw_trace::Header;

/// The monitors of a trace, by the criteria that are asked for.
#[derive(Drop)]
pub enum Monitors {
    Opacity(Monitor),
    Strict(Monitor),
    Both(BothMonitor),
}

/// Makes the monitors for the history of a trace with this header, before its first event.
pub fn monitors_for(
    alloc: Global,
    header: Header,
    bounds: Bounds,
    asked: Asked,
) -> Result<Monitors, AllocError>
    ensures { IfOk result (AreFed header bounds asked []) }
{
    match asked {
        Asked::Opacity => {
            let opacity = monitor_for(alloc, Criterion::Opacity, header, bounds)?;
            Ok(Monitors::Opacity(opacity))
        }
        Asked::Strict => {
            let strict = monitor_for(alloc, Criterion::Strict, header, bounds)?;
            Ok(Monitors::Strict(strict))
        }
        Asked::Both => {
            let both = BothMonitor::new(alloc, header.registers, header.initial, bounds)?;
            Ok(Monitors::Both(both))
        }
    }
}

/// Makes the monitor for this criterion.
fn monitor_for(
    alloc: Global,
    criterion: Criterion,
    header: Header,
    bounds: Bounds,
) -> Result<Monitor, AllocError>
    ensures { IfOk result (λ monitor. Fits (trace_rules header bounds criterion) [] monitor) }
{
    Monitor::for_criterion(alloc, criterion, header.registers, header.initial, bounds)
}

/// Tells whether some monitor has found nothing wrong so far.
#[inline(always)]
pub fn any_open(monitors: &Monitors) -> bool
    ensures { result ≡ any_open (verdicts_of monitors.now) }
{
    match monitors {
        Monitors::Opacity(monitor) | Monitors::Strict(monitor) => is_open(&monitor.verdict()),
        Monitors::Both(both) => is_open(&both.opacity()) || is_open(&both.strict()),
    }
}

/// Tells whether the last event that was fed is counted.
#[inline(always)]
pub fn covers_last(monitors: &Monitors) -> bool
    ensures { TellsCovered monitors.now result }
{
    match monitors {
        Monitors::Opacity(monitor) | Monitors::Strict(monitor) => {
            covers_event(monitor.fed(), &monitor.verdict())
        }
        Monitors::Both(both) => {
            let fed = both.fed();
            let first = counted_by(fed, &both.opacity());
            first.max(counted_by(fed, &both.strict())) == fed
        }
    }
}

/// Tells whether the last of so many events is counted beside this verdict.
#[tactic(auto, using(crate::proofs::CountedPart::covers_open))]
#[inline(always)]
pub fn covers_event(events: u64, verdict: &Verdict) -> bool
    ensures { result ≡ (counted_by events verdict.now == events) }
{
    if is_open(verdict) {
        true
    } else {
        counted_by(events, verdict) == events
    }
}

/// Feeds the event to each monitor.
#[inline(always)]
pub fn feed_copy(monitors: &mut Monitors, event: Event)
    requires { HaveRoom monitors.old }
    ensures { FeedsEach monitors.old event monitors.new }
{
    // A copy for the call alone, so that the event mostly stays in registers of the processor.
    let copied = Event {
        thread: event.thread,
        kind: event.kind,
    };
    feed_each(monitors, copied);
}

/// Feeds the event to each monitor, as `feed_copy` does. It is called.
#[inline(never)]
fn feed_each(monitors: &mut Monitors, event: Event)
    requires { HaveRoom monitors.old }
    ensures { FeedsEach monitors.old event monitors.new }
{
    match monitors {
        Monitors::Opacity(monitor) => {
            monitor.take(event);
        }
        Monitors::Strict(monitor) => {
            monitor.take(event);
        }
        Monitors::Both(both) => both.take(event),
    }
}

/// Returns what the monitors report of the history that they were fed.
pub fn reports_of(monitors: &Monitors) -> ByCriterion<Report>
    ensures { (header : Header) (bounds : Bounds) (asked : Asked) (history : List Event)
        → AreFed header bounds asked history monitors.now
        → AreReports header bounds asked history result }
{
    match monitors {
        Monitors::Opacity(monitor) => ByCriterion::Opacity(report_of(monitor)),
        Monitors::Strict(monitor) => ByCriterion::Strict(report_of(monitor)),
        Monitors::Both(both) => {
            let events = both.fed();
            let opacity = Report {
                events,
                verdict: both.opacity(),
            };
            let strict = Report {
                events,
                verdict: both.strict(),
            };
            ByCriterion::Both(opacity, strict)
        }
    }
}

/// Returns the first event that fits no run, if the monitors were fed one.
pub fn broken_of(monitors: &Monitors) -> Option<BrokenRule>
    ensures { (header : Header) (bounds : Bounds) (asked : Asked) (history : List Event)
        → AreFed header bounds asked history monitors.now
        → TellsBroken header.registers.number history result }
{
    match monitors {
        Monitors::Opacity(monitor) | Monitors::Strict(monitor) => monitor.broken(),
        Monitors::Both(both) => both.broken(),
    }
}

/// Returns what one monitor reports.
fn report_of(monitor: &Monitor) -> Report
    ensures { (rules : Rules) (history : List Event) → Fits rules history monitor.now
        → IsReportOn rules history result }
{
    Report {
        events: monitor.fed(),
        verdict: monitor.verdict(),
    }
}
