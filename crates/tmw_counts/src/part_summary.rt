ghost use Rattle.std.specs.Prelude.{◌≡◌, ◌<◌, ◌-◌, ◌^◌, length};
ghost use Rattle.tmw_counts.specs.CountedPart.{part_by};
ghost use Rattle.tmw_counts.specs.Summary.{IsSummary};
ghost use Rattle.tmw_defs.specs.Verdict.{IsVerdict, Rules};

use crate::counted_part::counted_by;
use crate::counter::Counter;
use crate::summary::Summary;
use tmw_defs::Verdict;
use tmw_events::{Event, Registers};

/// Returns what a history has shown whose verdict is known: up to the event that the verdict names, or before it where the
/// history is malformed, or all.
pub fn count_part(registers: Registers, events: &[Event], verdict: &Verdict) -> Summary
    ensures { (rules : Rules) → rules.registers ≡ registers.number → length events.now < 2 ^ 64 - 1
        → IsVerdict rules events.now verdict.now
        → IsSummary (part_by verdict.now events.now) result }
{
    let mut counter = Counter::new(registers);
    let covered = counted_by(events.len() as u64, verdict).min(events.len() as u64) as usize;
    for place in 0..covered {
        let _refused = counter.take(events[place]);
    }
    counter.summary()
}
