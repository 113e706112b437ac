ghost use Rattle.std.specs.Prelude.{◌≡◌};
ghost use Rattle.tmw_judge.specs.Lacks.{meeting_of};

use tmw_counts::Summary;

/// How the transactions of a run have met.
#[derive(Clone, Copy, PartialEq, Eq, Debug)]
pub enum Meeting {
    /// At most one thread has events.
    Alone,
    /// No two overlapped, although there are two threads or more.
    Apart,
    /// Some overlapped.
    Together,
}

/// Returns how the transactions that were counted have met.
pub const fn meeting_of(summary: &Summary) -> Meeting
    ensures { result ≡ meeting_of summary.now }
{
    if summary.counts.overlapping != 0 {
        return Meeting::Together;
    }
    if summary.none_overlapped {
        Meeting::Apart
    } else {
        Meeting::Alone
    }
}
