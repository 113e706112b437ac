use crate::size_line::SizeLine;
use tmw_ring_defs::Step;

/// Steps of a ring of this size, in the order in which its actors make them.
#[derive(Debug, Drop)]
pub struct StepList {
    pub size: SizeLine,
    pub steps: Vec<Step>,
}
