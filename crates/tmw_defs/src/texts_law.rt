ghost use Rattle.tmw_defs.specs.ThreadTransactions.{TextsLaw};

/// Proves that a history decomposes into its threads' transactions.
///
/// In every history, the transactions of a thread are its events in order, cut after each commit and each abort
/// event. Joined, their texts are the thread's events. All but the last have ended. Each lies from its first event to
/// its last.
pub fn law_texts()
    ensures { TextsLaw }
{}
