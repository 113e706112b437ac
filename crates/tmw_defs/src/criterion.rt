ghost use Rattle.std.specs.Prelude.{◌≡◌};

use crate::verdict::Verdict;

/// What is asked of a run of a transactional memory.
#[derive(Clone, Copy, PartialEq, Eq, Debug)]
pub enum Criterion {
    /// Opacity (Guerraoui and Kapalka 2008, section 5): a serial order has all transactions, also those that have aborted, that are
    /// live or that the completion leaves out.
    Opacity,
    /// Strict serializability (Papadimitriou 1979): a serial order has the transactions that the completion holds, and no others.
    Strict,
}

impl Criterion {
    ghost use Rattle.tmw_defs.specs.Criteria.{so_far};

    /// Returns the verdict on a history in which nothing is wrong.
    pub const fn so_far(self) -> Verdict
        ensures { result ≡ so_far self }
    {
        match self {
            Criterion::Opacity => Verdict::OpaqueSoFar,
            Criterion::Strict => Verdict::StrictSoFar,
        }
    }
}

/// Which criteria a run is judged by.
#[derive(Clone, Copy, PartialEq, Eq, Debug)]
pub enum Asked {
    Opacity,
    Strict,
    /// Opacity first, and then strict serializability.
    Both,
}
