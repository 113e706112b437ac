//! A verdict as a C program is told it.
ghost use Rattle.tmw_c.specs.Judge.{IsTold};

use tmw_defs::{Verdict, Why};
use tmw_watch::WatchReport;

/// What was judged, and the verdict on it.
#[repr(C)]
#[derive(Clone, Copy, PartialEq, Eq, Debug)]
pub struct CVerdict {
    /// How many events were judged.
    pub events: u64,
    /// The length of the prefix that the verdict names; 0 if it names none.
    pub at: u64,
    /// 0 opaque so far, 1 violated, 2 undecided, 3 malformed.
    pub verdict: u32,
    /// Of an undecided one, which bound was passed: 1 transactions, 2 outcomes; else 0.
    pub why: u32,
}

impl CVerdict {
    /// Returns what a C program is told of this report.
    pub fn of(report: WatchReport) -> CVerdict
        ensures { IsTold report.events report.verdict result }
    {
        let (verdict, at, why) = match report.verdict {
            Verdict::OpaqueSoFar => (0, 0, 0),
            Verdict::Violated(at) => (1, at, 0),
            Verdict::Undecided(at, Why::Transactions) => (2, at, 1),
            Verdict::Undecided(at, Why::States) => (2, at, 2),
            Verdict::Malformed(at) => (3, at, 0),
            Verdict::StrictSoFar => (4, 0, 0),
        };
        CVerdict {
            events: report.events,
            at,
            verdict,
            why,
        }
    }
}
