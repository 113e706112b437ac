ghost use Rattle.std.specs.Prelude.{◌≡◌};
ghost use Rattle.tmw_wellformed.specs.Notes.{end_of};

use tmw_events::Kind;

/// How a transaction ended.
#[derive(Clone, Copy, PartialEq, Eq, Debug)]
pub enum End {
    Commit,
    Abort,
}

/// What an accepted event is to its transaction.
#[derive(Clone, Copy, PartialEq, Eq, Debug)]
pub struct Note {
    /// Whether it begins the transaction.
    pub begins: bool,
    /// How it ends the transaction, if it does.
    pub ends: Option<End>,
}

/// Returns how an event of this kind ends its transaction, if it does.
#[inline(always)]
pub fn end_of(kind: Kind) -> Option<End>
    ensures { result ≡ end_of kind }
{
    match kind {
        Kind::C => Some(End::Commit),
        Kind::A => Some(End::Abort),
        _ => None,
    }
}
