use tmw_cuts::States;

/// The states in which a window's transactions may end.
#[derive(Debug, Drop)]
pub enum EndStates {
    /// They are at most as many as the caller allows.
    Few(States),
    /// They are more.
    Many,
}
