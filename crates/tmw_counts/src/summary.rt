use tmw_defs::Counts;

/// What a history has shown beside its verdict.
#[derive(Clone, Copy, PartialEq, Eq, Debug)]
pub struct Summary {
    pub counts: Counts,
    /// Whether no two transactions overlapped, although there are two threads or more.
    pub none_overlapped: bool,
}
