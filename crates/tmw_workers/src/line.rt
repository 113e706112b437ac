use crate::round_end::RoundEnd;
use rtrb::{Consumer, Producer};

/// The leader's ends of the line to one worker.
#[derive(Drop)]
pub struct Line {
    pub up: Consumer<RoundEnd>,
    pub down: Producer<u64>,
}
