use crate::precedence::Masks;
use tmw_events::MOST_REGISTERS;
/// Where a read has its value from: not chosen, the start, or the transaction at a place.
#[derive(Clone, Copy, Drop)]
pub enum ReadSource {
    Open,
    Start,
    From(u8),
}

/// Where each read has its value from.
#[derive(Clone, Copy, Drop)]
pub struct Choices {
    /// Which registers each transaction reads that others may have written, as a mask.
    pub reads: Masks,
    /// Who writes each register, of those that are held, as a mask.
    pub writers: [u8; MOST_REGISTERS],
    /// The source of each read: that of register r by transaction j stands at 8 j + r.
    pub sources: [ReadSource; 64],
}
