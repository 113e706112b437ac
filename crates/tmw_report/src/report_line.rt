ghost use Rattle.std.specs.Prelude.{◌≡◌, IfOk, string_bytes};
ghost use Rattle.tmw_report.specs.Lines.{criterion_text, reason_text, report_by, report_text, strict_text};

use std::alloc::{AllocError, Global};
use tmw_defs::{Criterion, Verdict, Why};

/// Makes the line that reports a verdict by opacity on a history of `events` events.
pub fn report_text(alloc: Global, events: u64, verdict: &Verdict) -> Result<String, AllocError>
    ensures { IfOk result (λ line. string_bytes line ≡ report_text events verdict.now) }
{
    report_by(alloc, Criterion::Opacity, events, verdict)
}

/// Makes the line that reports a verdict by strict serializability on a history of `events` events.
pub fn report_strict(alloc: Global, events: u64, verdict: &Verdict) -> Result<String, AllocError>
    ensures { IfOk result (λ line. string_bytes line ≡ strict_text events verdict.now) }
{
    report_by(alloc, Criterion::Strict, events, verdict)
}

/// Makes the line that reports a verdict by this criterion on a history of `events` events: an object in compact JSON,
/// with its keys in byte order, and then a line feed. It fails only after a failed allocation.
pub fn report_by(
    alloc: Global,
    criterion: Criterion,
    events: u64,
    verdict: &Verdict,
) -> Result<String, AllocError>
    ensures { IfOk result (λ line. string_bytes line ≡ report_by criterion events verdict.now) }
{
    let by = criterion_text(criterion);
    match *verdict {
        Verdict::OpaqueSoFar => {
            format!(in alloc; "{{{by}\"events\":{events},\"verdict\":\"opaque so far\"}}\n")
        }
        Verdict::StrictSoFar => {
            format!(in alloc; "{{{by}\"events\":{events},\"verdict\":\"strict so far\"}}\n")
        }
        Verdict::Violated(at) => {
            format!(in alloc; "{{\"at\":{at},{by}\"events\":{events},\"verdict\":\"violated\"}}\n")
        }
        Verdict::Undecided(at, why) => {
            let why = reason_of(why);
            format!(in alloc;
                "{{\"at\":{at},{by}\"events\":{events},\"verdict\":\"undecided\",\"why\":\"{why}\"}}\n"
            )
        }
        Verdict::Malformed(at) => {
            format!(in alloc; "{{\"at\":{at},{by}\"events\":{events},\"verdict\":\"malformed\"}}\n")
        }
    }
}

/// Returns the member that names the criterion where it is not opacity, with its comma.
const fn criterion_text(criterion: Criterion) -> &'static str
    ensures { result.now ≡ criterion_text criterion }
{
    match criterion {
        Criterion::Opacity => "",
        Criterion::Strict => "\"criterion\":\"strict\",",
    }
}

/// Returns the word that the line has for the bound that was passed.
const fn reason_of(why: Why) -> &'static str
    ensures { result.now ≡ reason_text why }
{
    match why {
        Why::Transactions => "transactions",
        Why::States => "states",
    }
}
