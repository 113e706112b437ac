ghost use Rattle.tmw_monitor.specs.Shared.{so_far};
ghost use Rattle.std.specs.Prelude.{IsTrue, ◌↔◌, ◌≡◌};

use tmw_defs::{Criterion, Verdict};

/// Tells whether the verdict is that of a history in which nothing is wrong by this criterion.
#[inline(always)]
pub fn is_so_far(criterion: Criterion, verdict: Verdict) -> bool
    ensures { IsTrue result ↔ (verdict ≡ so_far criterion) }
{
    match verdict {
        Verdict::OpaqueSoFar => matches!(criterion, Criterion::Opacity),
        Verdict::StrictSoFar => matches!(criterion, Criterion::Strict),
        Verdict::Violated(_) | Verdict::Undecided(_, _) | Verdict::Malformed(_) => false,
    }
}
