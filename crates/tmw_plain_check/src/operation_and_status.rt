//! What the text of a transaction says. The check has its own functions for it, so that no mistake of the judge can be theirs too.
ghost use Rattle.std.specs.Prelude.{◌≡◌, [], ◌∷◌, Some, MatchOption};
ghost use Rattle.tmw_defs.specs.History.{is_ended, operation, status_after, status_of};

use tmw_defs::{Op, Status};
use tmw_events::Kind;

/// Returns the operation that a call and its answer make, if they make one.
pub fn operation(call: Kind, answer: Kind) -> Option<Op>
    ensures { MatchOption result
        (operation call answer ≡ []) (λ op. operation call answer ≡ op ∷ []) }
{
    match (call, answer) {
        (Kind::R(register), Kind::V(value)) => Some(Op::Read(register, value)),
        (Kind::W(register, value), Kind::K) => Some(Op::Write(register, value)),
        (Kind::N(register, added), Kind::V(value)) => Some(Op::Add(register, added, value)),
        _ => None,
    }
}

/// Returns the status of a transaction whose last event is of this kind.
fn status_after(last: Kind) -> Status
    ensures { result ≡ status_after (Some last) }
{
    match last {
        Kind::C => Status::Committed,
        Kind::A => Status::Aborted,
        Kind::T => Status::Pending,
        Kind::R(_) | Kind::V(_) | Kind::W(_, _) | Kind::K | Kind::X | Kind::N(_, _) => Status::Live,
    }
}

/// Returns the status of a transaction with this text, by its last event.
pub fn status_of(text: &[Kind]) -> Status
    ensures { result ≡ status_of text.now }
{
    text.last().map_or(Status::Live, |kind| status_after(*kind))
}

/// Tells whether a transaction with this text has committed or aborted.
pub fn is_ended(text: &[Kind]) -> bool
    ensures { result ≡ is_ended text.now }
{
    matches!(status_of(text), Status::Committed | Status::Aborted)
}
