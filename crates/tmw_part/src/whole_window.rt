use std::alloc::Global;
use tmw_cuts::States;
use tmw_defs::Criterion;
use tmw_events::{Event, Registers};

/// Where a part that is violated is searched: the events of a window, from the states before it and by the criterion.
#[derive(Drop)]
pub(crate) struct WholeWindow<'a> {
    pub criterion: Criterion,
    pub alloc: Global,
    pub registers: Registers,
    pub states: &'a States,
    pub events: &'a [Event],
}
