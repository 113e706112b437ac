ghost use Rattle.std.specs.Prelude.{◌≡◌, false};

use crate::bounds::Bounds;
use tmw_defs::Asked;

/// What `judge` is to do.
#[derive(Clone, Copy, PartialEq, Eq, Debug)]
pub struct JudgeOptions {
    pub bounds: Bounds,
    pub asked: Asked,
    /// It ends at the first event at which all verdicts are final, if one comes.
    pub first: bool,
    /// It counts the transactions, overlaps and cuts of what the verdicts cover.
    pub summary: bool,
}

impl JudgeOptions {
    /// Returns the options of a run that reads the whole trace and counts nothing.
    pub const fn plain(bounds: Bounds, asked: Asked) -> JudgeOptions
        ensures { result ≡ record
            { bounds = bounds; asked = asked; first = false; summary = false } }
    {
        JudgeOptions {
            bounds,
            asked,
            first: false,
            summary: false,
        }
    }
}
