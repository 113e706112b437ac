ghost use Rattle.std.specs.Prelude.{◌≡◌};
ghost use Rattle.tmw_counts.specs.CountedPart.{counted_by, is_open};

use tmw_defs::Verdict;

/// Returns how many of a history's events are counted beside its verdict: those up to the event that the verdict names, or
/// before it where the history is malformed, or all.
pub const fn counted_by(events: u64, verdict: &Verdict) -> u64
    ensures { result ≡ counted_by events verdict.now }
{
    match *verdict {
        Verdict::OpaqueSoFar | Verdict::StrictSoFar => events,
        Verdict::Violated(at) | Verdict::Undecided(at, _) => at,
        Verdict::Malformed(at) => at.saturating_sub(1),
    }
}

/// Tells whether a verdict says that nothing is wrong so far.
#[inline(always)]
pub const fn is_open(verdict: &Verdict) -> bool
    ensures { result ≡ is_open verdict.now }
{
    match *verdict {
        Verdict::OpaqueSoFar | Verdict::StrictSoFar => true,
        _ => false,
    }
}
