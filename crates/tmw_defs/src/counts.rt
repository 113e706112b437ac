/// What a history has shown beside its verdict.
#[derive(Clone, Copy, PartialEq, Eq, Debug)]
pub struct Counts {
    /// Transactions that have aborted.
    pub aborted: u64,
    /// Transactions that have committed.
    pub committed: u64,
    /// Lengths from 1 on at which each transaction has committed or aborted.
    pub cuts: u64,
    /// Transactions that have neither committed nor aborted, the commit-pending ones included.
    pub live: u64,
    /// Transactions that overlap another: neither precedes the other in real time.
    pub overlapping: u64,
    /// Transactions, of whatever status.
    pub transactions: u64,
    /// Transactions whose abort event answers no abort request.
    pub unasked: u64,
    /// Transactions of the widest window, the last window included.
    pub widest: u64,
}
