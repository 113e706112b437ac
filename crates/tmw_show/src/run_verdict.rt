ghost use Rattle.std.specs.Prelude.{◌≡◌};
ghost use Rattle.tmw_show.specs.Drawing.{malformed_text, marked_at, rule_text, told_text, undecided_text, violated_text, wrong_text};

use tmw_defs::{Criterion, Verdict, Why};
use tmw_monitor::BrokenRule;
use tmw_wellformed::Malformed;

/// What is told of a run at the event at which something is wrong with it.
#[derive(Debug, Clone, Copy)]
pub struct RunVerdict {
    pub criterion: Criterion,
    /// How many events of the run come before the trace's first.
    pub before: u64,
    pub verdict: Verdict,
    /// The first event that fits no run, if one does not.
    pub broken: Option<BrokenRule>,
}

/// Returns the number, in the whole run, of the event that the verdict names, if it names one.
pub fn marked_at(told: RunVerdict) -> Option<u128>
    ensures { result ≡ marked_at told }
{
    match told.verdict {
        Verdict::OpaqueSoFar | Verdict::StrictSoFar => None,
        Verdict::Violated(at) | Verdict::Undecided(at, _) | Verdict::Malformed(at) => {
            Some(told.before as u128 + at as u128)
        }
    }
}

/// Returns what is printed beside the event of this number in the whole run: what is wrong there if the verdict names
/// it, else nothing.
pub fn told_text(told: RunVerdict, number: u128) -> &'static str
    ensures { result.now ≡ told_text told number }
{
    match marked_at(told) {
        Some(at) if at == number => wrong_of(told),
        _ => "",
    }
}

/// Returns what is wrong with the run, if anything is.
pub fn wrong_of(told: RunVerdict) -> &'static str
    ensures { result.now ≡ wrong_text told }
{
    match told.verdict {
        Verdict::OpaqueSoFar | Verdict::StrictSoFar => "",
        Verdict::Violated(_at) => violated_of(told.criterion),
        Verdict::Undecided(_at, why) => undecided_of(why),
        Verdict::Malformed(_at) => malformed_of(told.broken),
    }
}

/// The words for a prefix that is violated.
fn violated_of(criterion: Criterion) -> &'static str
    ensures { result.now ≡ violated_text criterion }
{
    match criterion {
        Criterion::Opacity => "violates opacity",
        Criterion::Strict => "violates strict serializability",
    }
}

/// The words for a prefix that passes this bound.
fn undecided_of(why: Why) -> &'static str
    ensures { result.now ≡ undecided_text why }
{
    match why {
        Why::Transactions => "undecided: too many transactions",
        Why::States => "undecided: too many initial states",
    }
}

/// The words for a prefix whose last event fits no run.
fn malformed_of(broken: Option<BrokenRule>) -> &'static str
    ensures { result.now ≡ malformed_text broken }
{
    match broken {
        Some(broken) => rule_of(broken.rule),
        None => "malformed",
    }
}

/// The words for the rule that it breaks.
fn rule_of(rule: Malformed) -> &'static str
    ensures { result.now ≡ rule_text rule }
{
    match rule {
        Malformed::Register => "malformed: the run has no such register",
        Malformed::Busy => "malformed: this thread already has a pending call",
        Malformed::Idle => "malformed: this thread has no pending call",
        Malformed::Mismatch => "malformed: the answer does not match the call",
    }
}
