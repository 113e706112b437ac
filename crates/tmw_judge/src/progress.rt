ghost use Rattle.std.specs.Prelude.{◌≡◌};
ghost use Rattle.tmw_judge.specs.Lacks.{progress_of};

use tmw_defs::Counts;

/// Of so many transactions one commits at least, where a memory or a store makes progress: as in the bench in C.
const FEW_COMMITS: u64 = 20;

/// How many of a run's transactions have committed.
#[derive(Clone, Copy, PartialEq, Eq, Debug)]
pub enum Progress {
    /// None.
    Nothing,
    /// Fewer than one in twenty: nearly all were refused.
    Little,
    /// More.
    Enough,
}

/// Returns how many of the counted transactions have committed.
pub const fn progress_of(counts: &Counts) -> Progress
    ensures { result ≡ progress_of counts.now }
{
    if counts.committed == 0 {
        return Progress::Nothing;
    }
    if counts.committed < counts.transactions / FEW_COMMITS {
        Progress::Little
    } else {
        Progress::Enough
    }
}
