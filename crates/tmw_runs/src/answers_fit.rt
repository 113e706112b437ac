//! Which answers a call may have.
ghost use Rattle.tmw_runs.specs.Shared.{answers};
ghost use Rattle.std.specs.Prelude.{◌≡◌};
ghost use Rattle.tmw_runs.specs.Runs.{is_abort};

use tmw_events::Kind;

/// Tells whether the event may answer the call.
pub fn fits(call: Kind, answer: Kind) -> bool
    ensures { result ≡ answers call answer }
{
    match call {
        Kind::R(_) | Kind::N(..) => matches!(answer, Kind::V(_) | Kind::A),
        Kind::W(..) => matches!(answer, Kind::K | Kind::A),
        Kind::T => matches!(answer, Kind::C | Kind::A),
        Kind::X => matches!(answer, Kind::A),
        _ => false,
    }
}

/// Tells whether the answer is an abort event, after which a transaction makes no further call.
pub fn is_abort(answer: Kind) -> bool
    ensures { result ≡ is_abort answer }
{
    matches!(answer, Kind::A)
}
