use tmw_cuts::States;

/// What the next event of a history does with its last window.
#[derive(Debug, Drop)]
pub enum WindowChange {
    /// Nothing: something is wrong before it.
    None,
    /// It begins a new one, after so many events and from these states.
    Begins { from: u64, states: States },
    /// It goes on with the one that there is.
    GoesOn,
}
