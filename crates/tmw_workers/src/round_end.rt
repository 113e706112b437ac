use tmw_ring::Refused;

/// What a worker tells when its part of a round has ended.
#[derive(Clone, Copy)]
pub struct RoundEnd {
    /// How many of the ring's places were claimed, all of the worker's among them. 0 if it was stopped.
    pub tail: u64,
    /// The refusal at which it was stopped, if any.
    pub stop: Option<Refused>,
}
