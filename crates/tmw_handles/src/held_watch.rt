use tmw_ring::Writer;
use tmw_watch::Watch;

/// What a watch's handle holds.
#[derive(Drop)]
pub enum HeldWatch {
    /// A watch that is open.
    Open(Watch),
    /// A watch whose ring has an owner beside it and its recorders, which no call makes, with what the recorders
    /// recorded by.
    Shared(Watch, Vec<Writer>),
    /// Nothing more, while a call closes what was held.
    Closed,
}
