use crate::bounds::Bounds;
use crate::form::Form;
use tmw_defs::Criterion;

/// What `show` is to do.
#[derive(Clone, Copy, PartialEq, Eq, Debug)]
pub struct ShowOptions {
    pub criterion: Criterion,
    pub form: Form,
    /// Of a violated window it shows a part that is violated by itself, and says why.
    pub why: bool,
    /// How many events of the run come before the trace's first.
    pub before: u64,
    pub bounds: Bounds,
}
