ghost use Rattle.tmw_steps.specs.Laws.{StepsLaw};

/// Proves that a text names its size and its steps: two lists of steps with one text have the same size and the same
/// steps.
pub fn law_steps()
    ensures { StepsLaw }
{}
