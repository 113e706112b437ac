ghost use Rattle.tmw_trace.specs.Laws.{TextsNameTraces, PairsNameEvents};

/// Proves unique readability of texts and of packed words.
///
/// A text names its trace: two traces with one text have one header and the same events. Two packed words name their
/// event: two events with the same words are one.
pub fn law_3()
    ensures texts { TextsNameTraces }
    ensures pairs { PairsNameEvents }
{}
