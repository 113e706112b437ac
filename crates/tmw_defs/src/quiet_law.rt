ghost use Rattle.tmw_defs.specs.QuietLaw.{QuietLaw};

/// Proves preservation: which events can't break opacity, and which can't break strict serializability.
///
/// A final-state opaque history stays so, as long as it stays well-formed, under every event but a value and the
/// answer of a commit request. A value answers a read or an add. A final-state strict history stays so under every
/// event but the answer of a commit request.
pub fn law_2()
    ensures { QuietLaw }
{}
