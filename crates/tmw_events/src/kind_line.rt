ghost use Rattle.std.specs.Prelude.{◌≡◌, IfSome, IfNone};
ghost use Rattle.tmw_events.specs.Text.{digit, kind_text, FitsKind};
ghost use Rattle.tmw_events.specs.declared.event.Kind.{Kind};
ghost use Rattle.tmw_events.specs.declared.ix.Ix.{Ix};

use crate::event::Kind;
use crate::ix::Ix;
use crate::number::number_of;

/// Returns the kind whose text these bytes are, and `None` for all other bytes. The text is a trace's line without
/// its thread and its line feed.
pub fn kind_of(bytes: &[u8]) -> Option<Kind>
    ensures some { IfSome result (λ kind. bytes.now ≡ kind_text kind) }
    ensures fits { IfSome result FitsKind }
    ensures none { IfNone result ((kind : Kind) → FitsKind kind → bytes.now ≡ kind_text kind → ⊥) }
{
    match bytes {
        [b'K'] => Some(Kind::K),
        [b'T'] => Some(Kind::T),
        [b'C'] => Some(Kind::C),
        [b'X'] => Some(Kind::X),
        [b'A'] => Some(Kind::A),
        [b'R', b' ', register] => {
            let Some(register) = ix_of(*register) else {
                return None;
            };
            Some(Kind::R(register))
        }
        [b'V', b' ', value @ ..] => {
            let Some(value) = number_of(value) else {
                return None;
            };
            Some(Kind::V(value))
        }
        [b'W', b' ', register, b' ', value @ ..] => {
            let Some(register) = ix_of(*register) else {
                return None;
            };
            let Some(value) = number_of(value) else {
                return None;
            };
            Some(Kind::W(register, value))
        }
        [b'N', b' ', register, b' ', value @ ..] => {
            let Some(register) = ix_of(*register) else {
                return None;
            };
            let Some(value) = number_of(value) else {
                return None;
            };
            Some(Kind::N(register, value))
        }
        _ => None,
    }
}

/// Returns the thread or register whose digit this byte is, and `None` for all other bytes.
pub fn ix_of(byte: u8) -> Option<Ix>
    ensures some { IfSome result (λ ix. byte ≡ digit ix) }
    ensures none { IfNone result ((ix : Ix) → byte ≡ digit ix → ⊥) }
{
    // A byte below the digits wraps round to more than any of them.
    Ix::new(byte.wrapping_sub(b'0'))
}
