ghost use Rattle.std.specs.Prelude.{◌≡◌, ◌&&◌, not};
ghost use Rattle.tmw_judge.specs.Tally.{any_open, verdicts_of};

use crate::monitors::{Monitors, any_open};

/// What tells up to where the events of a trace are fed to its judges.
pub trait Ending: Drop {
    ghost use Rattle.std.specs.Prelude.{Bool};

    /// Whether it is only up to the event at which all verdicts are final.
    ghost first: { Bool };

    /// Returns whether to stop: if it is so, once all verdicts are final.
    fn is_at(monitors: &Monitors) -> bool
        ensures { result ≡ (first && not (any_open (verdicts_of monitors.now))) };
}

/// Up to the end.
#[derive(Drop)]
pub struct UntilEnd;

impl Ending for UntilEnd {
    ghost use Rattle.std.specs.Prelude.{false};

    ghost first = { false };

    #[inline(always)]
    fn is_at(_monitors: &Monitors) -> bool {
        false
    }
}

/// Up to the event at which all verdicts are final.
#[derive(Drop)]
pub struct UntilFinal;

impl Ending for UntilFinal {
    ghost use Rattle.std.specs.Prelude.{true};

    ghost first = { true };

    #[inline(always)]
    fn is_at(monitors: &Monitors) -> bool {
        !any_open(monitors)
    }
}
