//! The counts of what was judged, as a C program is told them.
ghost use Rattle.tmw_c.specs.Summary.{IsCounted};

use tmw_watch::Summary;

/// What the events that were judged have shown beside their verdict.
#[repr(C)]
#[derive(Clone, Copy, PartialEq, Eq, Debug)]
pub struct CCounts {
    /// Transactions that have aborted.
    pub aborted: u64,
    /// Transactions that have committed.
    pub committed: u64,
    /// Lengths from 1 on at which each transaction has committed or aborted.
    pub cuts: u64,
    /// Transactions that have neither committed nor aborted.
    pub live: u64,
    /// Transactions that overlap another.
    pub overlapping: u64,
    /// Transactions, of whatever status.
    pub transactions: u64,
    /// Transactions whose abort event answers no abort request.
    pub unasked: u64,
    /// Transactions of the widest window.
    pub widest: u64,
    /// 1 if no two transactions overlapped, although there are two threads or more; else 0. No `bool`, since C may pass
    /// any byte.
    pub none_overlapped: u8,
}

impl CCounts {
    /// Returns what a C program is told of this summary.
    pub fn of(summary: Summary) -> CCounts
        ensures { IsCounted summary result }
    {
        let counts = summary.counts;
        CCounts {
            aborted: counts.aborted,
            committed: counts.committed,
            cuts: counts.cuts,
            live: counts.live,
            overlapping: counts.overlapping,
            transactions: counts.transactions,
            unasked: counts.unasked,
            widest: counts.widest,
            none_overlapped: u8::from(summary.none_overlapped),
        }
    }
}
