//! Workloads that tests tell by their texts, and what they expect of their logs.
use std::alloc::Global;
use test_support::one;
use tmw_events::{Event, Kind};
use tmw_workloads::{Workload, read_workload};

/// Reads the workload of this text.
pub fn told(alloc: Global, text: &str) -> Option<Workload> {
    read_workload(alloc, text.as_bytes()).ok()
}

/// Whether the log has just these events, all of the first thread.
pub fn has_recorded(log: &[Event], kinds: &[Kind]) -> bool {
    log.len() == kinds.len()
        && log
            .iter()
            .zip(kinds)
            .all(|(event, kind)| *event == one(*kind))
}
