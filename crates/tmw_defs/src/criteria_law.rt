ghost use Rattle.tmw_defs.specs.CriteriaLaw.{CriteriaLaw};

/// Proves that opacity asks more than strict serializability.
///
/// An opaque history is strictly serializable. By strict serializability the verdict is 'strict so far' exactly if
/// each prefix is final-state strict and no prefix passes a bound.
pub fn law_criteria()
    ensures { CriteriaLaw }
{}
