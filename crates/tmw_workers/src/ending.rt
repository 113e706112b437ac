use tmw_ring::Refused;

/// How far a thread has come in its script.
#[derive(Clone, Copy, PartialEq, Eq, Debug)]
pub enum Ending {
    /// All calls were made and answered.
    Done,
    /// The order ran out before the script.
    Left,
    /// An event could not be recorded in a ring. A workload that is driven in one thread never ends so.
    Stopped(Refused),
}
