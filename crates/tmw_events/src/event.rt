use crate::ix::Ix;

/// What an event is: an operation's call, its answer, or a request or an event that ends a transaction
/// (Guerraoui and Kapalka 2008, section 4, over registers). Values are 64 bits.
#[derive(Clone, Copy, PartialEq, Eq, Debug)]
pub enum Kind {
    /// Call: read the register. Answered by `V` or `A`.
    R(Ix),
    /// Answer of a read or an add: the value that the register had.
    V(u64),
    /// Call: write the value to the register. Answered by `K` or `A`.
    W(Ix, u64),
    /// Answer of a write.
    K,
    /// Commit request, tryC. Answered by `C` or `A`.
    T,
    /// Commit event: the transaction has committed.
    C,
    /// Abort request, tryA. Answered by `A`.
    X,
    /// Abort event: the transaction has aborted. It may answer any call.
    A,
    /// Call: add the value to the register, modulo 2^64. Answered by `V` or `A`.
    N(Ix, u64),
}

/// One event of a history: what a thread called or was answered.
#[derive(Clone, Copy, PartialEq, Eq, Debug)]
pub struct Event {
    pub thread: Ix,
    pub kind: Kind,
}
