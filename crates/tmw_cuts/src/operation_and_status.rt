ghost use Rattle.tmw_cuts.specs.Shared.{operation, status_after};
ghost use Rattle.std.specs.Prelude.{MatchOption, Some, [], ◌∷◌, ◌≡◌};

use tmw_defs::{Op, Status};
use tmw_events::Kind;

/// Returns the operation that a call and its answer make, if they make one.
pub fn operation(call: Kind, answer: Kind) -> Option<Op>
    ensures { MatchOption result
        (operation call answer ≡ []) (λ op. operation call answer ≡ op ∷ []) }
{
    match (call, answer) {
        (Kind::R(register), Kind::V(value)) => Some(Op::Read(register, value)),
        (Kind::W(register, value), Kind::K) => Some(Op::Write(register, value)),
        (Kind::N(register, added), Kind::V(value)) => Some(Op::Add(register, added, value)),
        _ => None,
    }
}

/// Returns the status of a transaction whose last event is of this kind.
pub fn status_after(last: Kind) -> Status
    ensures { result ≡ status_after (Some last) }
{
    match last {
        Kind::C => Status::Committed,
        Kind::A => Status::Aborted,
        Kind::T => Status::Pending,
        Kind::R(_) | Kind::V(_) | Kind::W(_, _) | Kind::K | Kind::X | Kind::N(_, _) => Status::Live,
    }
}
