ghost use Rattle.tmw_defs.specs.Cuts.{CutLaw};

/// Proves compositionality: opacity and strict serializability are judged window by window.
///
/// A cut is a length at which each transaction has ended. There the past is summed up by its outcomes, the states in
/// which it may have ended. A well-formed history is final-state opaque, or final-state strict, exactly if what
/// follows the cut has an end state from those outcomes. What follows is taken as a history of its own. At a cut
/// these end states are the history's outcomes.
pub fn law_1()
    ensures { CutLaw }
{}
