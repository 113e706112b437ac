ghost use Rattle.tmw_window.specs.StatesLaw.{StatesLaw};
ghost use Rattle.tmw_window.specs.WindowLaw.{WindowLaw};

/// Proves that the window shown says what went wrong. A history is violated at its event exactly if its last window,
/// up to that event, is violated at its end from each of the states from which it begins. The window is taken as a
/// history of its own. From a single state it has the history's verdict.
pub fn law_window()
    ensures { WindowLaw }
{}

/// Proves that the states from which that window begins are states of the run. Each gives eight registers values of
/// 64 bits, and 0 to those that the run doesn't have. That holds if the run began so and its events' values have 64
/// bits.
pub fn law_states()
    ensures { StatesLaw }
{}
