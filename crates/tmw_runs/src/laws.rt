ghost use Rattle.tmw_runs.specs.Laws.{BeginsLaw, FormedLaw, OverLaw, PlacedLaw, RunsLaw, StepLaw};
ghost use Rattle.tmw_runs.specs.Runs.{BeginsScript};
ghost use Rattle.tmw_runs.specs.ByTurns.{IsByTurns};

/// Proves two laws of runs of scripts.
///
/// No whole run of a script is a proper beginning of another, so a thread's events alone tell whether its script is
/// over. If each thread's events begin a run of a script of transactions, the history and each of its prefixes are
/// well-formed, so no verdict on it is `Malformed`.
pub fn law_runs()
    ensures runs { RunsLaw }
    ensures formed { FormedLaw BeginsScript }
{}

/// Proves five laws of transactions that are carried out by turns.
///
/// The first turn needs no event. An event that brings a transaction to its next turn brings its thread on. When the
/// last transaction is over, the thread's events are a whole run. If each thread records by turns alone, the history and
/// each of its prefixes are well-formed. One call or more, each at its place and on a register that the run has, are
/// those of a transaction.
pub fn law_turns()
    ensures begins { BeginsLaw }
    ensures step { StepLaw }
    ensures over { OverLaw }
    ensures formed { FormedLaw IsByTurns }
    ensures placed { PlacedLaw }
{}
