use std::marker::Brand;

/// Which answers may come from the memory, which each call picks.
pub trait MemoryAnswers {
    ghost use Rattle.tmw_tm.specs.Answers.{Call, Answer};

    ghost gave: { Call → Answer → Type 0 };
}

impl MemoryAnswers for Brand {
    ghost gave = { λ _ _. Unit {0} };
}
