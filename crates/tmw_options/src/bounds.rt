ghost use Rattle.std.specs.Prelude.{IfErr, IfOk, ◌<◌, ◌≡◌, ◌≤◌};
ghost use Rattle.tmw_options.specs.BadBounds.{IsBad};

use thiserror::Error;

/// How far a history is judged: the most transactions that a window may have, and the most outcomes that a history may have
/// at a cut.
#[derive(Clone, Copy, PartialEq, Eq, Debug)]
pub struct Bounds {
    /// 1 to 8.
    pub window: u8,
    /// 1 to 64.
    pub states: u8,
    pub ghost some_transactions: { 0 < window },
    pub ghost most_transactions: { window ≤ 8 },
    pub ghost some_states: { 0 < states },
    pub ghost most_states: { states ≤ 64 },
}

/// Which bound is out of its range. The window's is tested first.
#[derive(Debug, Drop, Clone, Copy, PartialEq, Eq, Error)]
pub enum BadBounds {
    #[error("a window may have 1 to 8 transactions")]
    Window,
    #[error("a history may have 1 to 64 outcomes at a cut")]
    States,
}

impl Bounds {
    /// Makes bounds of 1 to 8 transactions in a window and 1 to 64 outcomes at a cut. Any other number is an error.
    pub const fn new(window: u8, states: u8) -> Result<Bounds, BadBounds>
        ensures ok { IfOk result (λ bounds. (bounds.window ≡ window) × (bounds.states ≡ states)) }
        ensures err { IfErr result (IsBad window states) }
    {
        if window == 0 || window > 8 {
            return Err(BadBounds::Window);
        }
        if states == 0 || states > 64 {
            return Err(BadBounds::States);
        }
        Ok(Bounds { window, states })
    }
}
