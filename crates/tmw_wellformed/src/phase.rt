ghost use Rattle.std.specs.Prelude.{◌≡◌};
ghost use Rattle.tmw_wellformed.specs.Phase.{is_live, next_phase};

use crate::malformed::Malformed;
use tmw_events::Kind;

/// How far a thread is: whether it has a live transaction, and what its pending call waits for.
#[derive(Clone, Copy, PartialEq, Eq, Debug)]
pub enum Phase {
    /// No transaction of the thread is live.
    Between,
    /// One is live, with no pending call.
    Within,
    /// A read or an add is pending.
    Reading,
    /// A write is pending.
    Writing,
    /// A commit request is pending.
    Committing,
    /// An abort request is pending.
    Aborting,
}

impl Phase {
    /// Tells whether a transaction of the thread is live.
    #[inline(always)]
    pub fn is_live(self) -> bool
        ensures { result ≡ is_live self }
    {
        self != Phase::Between
    }

    /// Returns the phase after one more event of the thread, or the event's fault. Whether a call's register is one
    /// of the run's is tested elsewhere.
    #[inline(always)]
    pub fn next(self, kind: Kind) -> Result<Phase, Malformed>
        ensures { result ≡ next_phase self kind }
    {
        match (self, kind) {
            (Phase::Between | Phase::Within, Kind::R(_) | Kind::N(_, _)) => Ok(Phase::Reading),
            (Phase::Between | Phase::Within, Kind::W(_, _)) => Ok(Phase::Writing),
            (Phase::Between | Phase::Within, Kind::T) => Ok(Phase::Committing),
            (Phase::Between | Phase::Within, Kind::X) => Ok(Phase::Aborting),
            (Phase::Between | Phase::Within, _) => Err(Malformed::Idle),
            (_, Kind::R(_) | Kind::N(_, _) | Kind::W(_, _) | Kind::T | Kind::X) => {
                Err(Malformed::Busy)
            }
            (_, Kind::A) | (Phase::Committing, Kind::C) => Ok(Phase::Between),
            (Phase::Reading, Kind::V(_)) | (Phase::Writing, Kind::K) => Ok(Phase::Within),
            _ => Err(Malformed::Mismatch),
        }
    }
}
