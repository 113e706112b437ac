ghost use Rattle.std.specs.Prelude.{◌≡◌};
ghost use Rattle.tmw_report.specs.Lines.{both_status, verdict_status};

use tmw_defs::Verdict;

/// The exit status of each fault.
pub const FAULT_STATUS: u8 = 4;

/// Returns the exit status of a verdict: 0 for opaque so far and for strict so far, 1 for violated, 2 for undecided,
/// 3 for malformed.
pub const fn status_of(verdict: &Verdict) -> u8
    ensures { result ≡ verdict_status verdict.now }
{
    match *verdict {
        Verdict::OpaqueSoFar | Verdict::StrictSoFar => 0,
        Verdict::Violated(_) => 1,
        Verdict::Undecided(_, _) => 2,
        Verdict::Malformed(_) => 3,
    }
}

/// Returns the exit status of the two verdicts by both criteria: 3 if either is malformed, else 1 if either is
/// violated, else 2 if either is undecided, else 0.
pub const fn both_status(opacity: &Verdict, strict: &Verdict) -> u8
    ensures { result ≡ both_status opacity.now strict.now }
{
    match (*opacity, *strict) {
        (Verdict::Malformed(_), _) | (_, Verdict::Malformed(_)) => 3,
        (Verdict::Violated(_), _) | (_, Verdict::Violated(_)) => 1,
        (Verdict::Undecided(_, _), _) | (_, Verdict::Undecided(_, _)) => 2,
        _ => 0,
    }
}
