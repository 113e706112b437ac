ghost use Rattle.std.specs.Prelude.{◌≡◌};
ghost use Rattle.tmw_monitor.specs.OutcomeCheck.{wrong_of};

use tmw_defs::{Verdict, Why};

/// What was found of the outcomes of a window, from those at its beginning.
#[derive(Clone, Copy, PartialEq, Eq, Debug)]
pub enum OutcomeCheck {
    /// There is one, and at a cut there are not too many.
    Outcome,
    /// There is none.
    NoOutcome,
    /// The window is at a cut, and there are too many.
    TooMany,
}

impl OutcomeCheck {
    /// Returns the verdict on a history of this length, if this was found of its last window and something is wrong
    /// with it.
    pub fn wrong(self, at: u64) -> Option<Verdict>
        ensures { result ≡ wrong_of at self }
    {
        match self {
            OutcomeCheck::Outcome => None,
            OutcomeCheck::NoOutcome => Some(Verdict::Violated(at)),
            OutcomeCheck::TooMany => Some(Verdict::Undecided(at, Why::States)),
        }
    }
}
