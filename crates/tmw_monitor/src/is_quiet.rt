ghost use Rattle.tmw_monitor.specs.Shared.{Txn, is_quiet_by};
ghost use Rattle.std.specs.Prelude.{IsTrue, List, ℕ};

use tmw_defs::Criterion;
use tmw_events::Kind;

/// Tells whether an event of this kind can't break the criterion. `false` tells nothing. Such an event ends no transaction; by opacity it
/// is no value either, which answers a read or an add.
#[inline(always)]
pub fn is_quiet(criterion: Criterion, kind: Kind) -> bool
    ensures { IsTrue result → (transactions : List Txn) (thread : ℕ)
        → IsTrue (is_quiet_by criterion transactions thread kind) }
{
    match kind {
        Kind::V(_) => matches!(criterion, Criterion::Strict),
        Kind::C | Kind::A => false,
        Kind::R(_) | Kind::W(_, _) | Kind::N(_, _) | Kind::K | Kind::T | Kind::X => true,
    }
}
