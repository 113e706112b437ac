use thiserror::Error;

/// Why an event was not recorded, or why there is no room for several. Whether too few places are left is tested first.
#[derive(Clone, Copy, PartialEq, Eq, Debug, Error)]
pub enum Refused {
    /// There was no room for what is asked and an event of each other writer. `tail` places were given, and `front`
    /// of them are free again.
    #[error("the ring lacks room: {tail} places were given, and {front} of them are free again")]
    Full { front: u64, tail: u64 },
    /// Fewer places than that takes are left up to the ring's limit.
    #[error("too few of the ring's places are left: {tail} were given")]
    Spent { tail: u64 },
}
