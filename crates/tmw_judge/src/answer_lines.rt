ghost use Rattle.std.specs.Prelude.{◌≡◌, IfOk, string_bytes};
ghost use Rattle.tmw_judge.specs.Judge.{report_lines, report_status};
ghost use Rattle.tmw_judge.specs.Tally.{all_open};
ghost use Rattle.tmw_judge.specs.Answer.{any_undecided, are_malformed, is_malformed, judged_lines, remark_of, remark_on, shows_nothing, told_verdicts, why_undecided};

use crate::by_criterion::ByCriterion;
use crate::judge_result::JudgeResult;
use crate::lacks::lacks_if;
use crate::report::Report;
use std::alloc::{AllocError, Global};
use tmw_counts::is_open;
use tmw_defs::Why;
use tmw_monitor::Verdict;
use tmw_report::{Remark, both_status, report_strict, report_text, status_of, summary_text};

/// Makes the lines that report what was found, a line for each report, and that by opacity first.
pub fn report_lines(alloc: Global, reports: &ByCriterion<Report>) -> Result<String, AllocError>
    ensures { IfOk result (λ lines. string_bytes lines ≡ report_lines reports.now) }
{
    match reports {
        ByCriterion::Opacity(report) => report_text(alloc, report.events, &report.verdict),
        ByCriterion::Strict(report) => report_strict(alloc, report.events, &report.verdict),
        ByCriterion::Both(opacity, strict) => {
            let mut lines = report_text(alloc, opacity.events, &opacity.verdict)?;
            let second = report_strict(alloc, strict.events, &strict.verdict)?;
            lines.push_str(second.as_str())?;
            Ok(lines)
        }
    }
}

/// Returns the reports' lines; then that of the counts, if there are counts; and then what the run did not test, if nothing
/// is wrong.
pub fn judged_lines(alloc: Global, answer: &JudgeResult) -> Result<String, AllocError>
    ensures { IfOk result (λ lines. string_bytes lines ≡ judged_lines answer.now) }
{
    let mut lines = report_lines(alloc, &answer.reports)?;
    if let Some(summary) = &answer.summary {
        let last = summary_text(alloc, &summary.counts)?;
        lines.push_str(last.as_str())?;
        lines.push_str(lacks_if(all_open(&answer.reports), summary))?;
    }
    Ok(lines)
}

/// Returns the exit status of the reports.
pub const fn status_of_reports(reports: &ByCriterion<Report>) -> u8
    ensures { result ≡ report_status reports.now }
{
    match reports {
        ByCriterion::Opacity(report) | ByCriterion::Strict(report) => status_of(&report.verdict),
        ByCriterion::Both(opacity, strict) => both_status(&opacity.verdict, &strict.verdict),
    }
}

/// Returns the remark on the run: that it shows nothing, that it is undecided, or which event fits no run although not each
/// line reports it.
pub fn remark_of(answer: &JudgeResult) -> Option<Remark>
    ensures { result ≡ remark_of answer.now }
{
    match answer.broken {
        Some(broken) if !are_malformed(&answer.reports) => Some(Remark::Broken(broken.at)),
        _ => remark_on(shows_nothing(answer), any_undecided(&answer.reports)),
    }
}

/// Returns the remark on a run whose events all fit. If it is undecided, it exceeded the bound `exceeded`.
const fn remark_on(shows_nothing: bool, exceeded: Option<Why>) -> Option<Remark>
    ensures { result ≡ remark_on shows_nothing exceeded }
{
    match (shows_nothing, exceeded) {
        (true, _) => Some(Remark::NothingShown),
        (false, Some(why)) => Some(Remark::Undecided(why)),
        (false, None) => None,
    }
}

/// Returns the bound that the run exceeded, if a report is undecided; of two, the report by opacity counts.
const fn any_undecided(reports: &ByCriterion<Report>) -> Option<Why>
    ensures { result ≡ any_undecided (told_verdicts reports.now) }
{
    match reports {
        ByCriterion::Opacity(report) | ByCriterion::Strict(report) => {
            why_undecided(&report.verdict)
        }
        ByCriterion::Both(opacity, strict) => match why_undecided(&opacity.verdict) {
            Some(why) => Some(why),
            None => why_undecided(&strict.verdict),
        },
    }
}

/// Returns the bound that the run exceeded, if this verdict is undecided.
const fn why_undecided(verdict: &Verdict) -> Option<Why>
    ensures { result ≡ why_undecided verdict.now }
{
    match *verdict {
        Verdict::Undecided(_at, why) => Some(why),
        _ => None,
    }
}

/// Returns whether each report says that the run is malformed.
const fn are_malformed(reports: &ByCriterion<Report>) -> bool
    ensures { result ≡ are_malformed (told_verdicts reports.now) }
{
    match reports {
        ByCriterion::Opacity(report) | ByCriterion::Strict(report) => is_malformed(&report.verdict),
        ByCriterion::Both(opacity, strict) => {
            is_malformed(&opacity.verdict) && is_malformed(&strict.verdict)
        }
    }
}

const fn is_malformed(verdict: &Verdict) -> bool
    ensures { result ≡ is_malformed verdict.now }
{
    matches!(verdict, Verdict::Malformed(_))
}

/// Returns whether nothing is wrong by any criterion, and by the counts no two transactions overlapped.
const fn shows_nothing(answer: &JudgeResult) -> bool
    ensures { result ≡ shows_nothing answer.now }
{
    match &answer.summary {
        Some(summary) => all_open(&answer.reports) && summary.none_overlapped,
        None => false,
    }
}

/// Returns whether nothing is wrong by any criterion.
const fn all_open(reports: &ByCriterion<Report>) -> bool
    ensures { result ≡ all_open (told_verdicts reports.now) }
{
    match reports {
        ByCriterion::Opacity(report) | ByCriterion::Strict(report) => is_open(&report.verdict),
        ByCriterion::Both(opacity, strict) => is_open(&opacity.verdict) && is_open(&strict.verdict),
    }
}
