use crate::by_criterion::ByCriterion;
use crate::report::Report;
use tmw_counts::Summary;
use tmw_monitor::BrokenRule;

/// The reports on a trace, what its history has shown, if that is counted, and the first event that fits no run, if one does
/// not.
#[derive(Debug, Drop)]
pub struct JudgeResult {
    pub reports: ByCriterion<Report>,
    pub summary: Option<Summary>,
    pub broken: Option<BrokenRule>,
}
