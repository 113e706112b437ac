ghost use Rattle.tmw_c.specs.Laws.{NeverMalformedLaw, OneKindLaw};

/// Proves two laws of what a C program records.
///
/// A letter, a register and a value ask for at most one kind of event. If all recorders of a watch have recorded by
/// turns alone until its ring ended, no verdict on its whole log is `Malformed`.
pub fn law_recorded()
    ensures one_kind { OneKindLaw }
    ensures formed { NeverMalformedLaw }
{}
