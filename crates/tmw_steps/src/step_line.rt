ghost use Rattle.std.specs.Prelude.{◌≡◌, [], ◌∷◌, IfSome, IfNone};
ghost use Rattle.tmw_events.specs.Text.{digit, kind_text, FitsKind};
ghost use Rattle.tmw_events.specs.declared.event.Kind.{Kind};
ghost use Rattle.tmw_events.specs.declared.ix.Ix.{Ix};
ghost use Rattle.tmw_steps.specs.Text.{step_text, FitsStep, IsNoStep};

use tmw_events::{Ix, Kind, ix_of, kind_of};
use tmw_ring_defs::Step;

/// Returns the step whose text these bytes are, and `None` for all other bytes. The text is a line without its line
/// feed.
pub fn step_of(bytes: &[u8]) -> Option<Step>
    ensures some { IfSome result (λ step. bytes.now ≡ step_text step) }
    ensures fits { IfSome result FitsStep }
    ensures none { IfNone result (IsNoStep bytes.now) }
{
    match bytes {
        [b'p', rest @ ..] => step_of_p(rest),
        [b'f', rest @ ..] => step_of_f(rest),
        [b'r', b'e', b'a', b'd'] => Some(Step::Read),
        [b't', b'a', b'i', b'l', b' ', rest @ ..] => writer_of(rest).map(Step::Tail),
        [b'c', b'l', b'a', b'i', b'm', b' ', rest @ ..] => writer_of(rest).map(Step::Claim),
        [b's', b't', b'o', b'p', b' ', rest @ ..] => writer_of(rest).map(Step::Stop),
        _ => None,
    }
}

/// The step whose text is `p` followed by these bytes.
fn step_of_p(bytes: &[u8]) -> Option<Step>
    ensures some { IfSome result (λ step. 112 ∷ bytes.now ≡ step_text step) }
    ensures fits { IfSome result FitsStep }
    ensures none { IfNone result (IsNoStep (112 ∷ bytes.now)) }
{
    match bytes {
        [b'e', b'e', b'k'] => Some(Step::Peek),
        [b'u', b'b', b'l', b'i', b's', b'h', b' ', rest @ ..] => writer_of(rest).map(Step::Publish),
        _ => None,
    }
}

/// The step whose text is `f` followed by these bytes.
fn step_of_f(bytes: &[u8]) -> Option<Step>
    ensures some { IfSome result (λ step. 102 ∷ bytes.now ≡ step_text step) }
    ensures fits { IfSome result FitsStep }
    ensures none { IfNone result (IsNoStep (102 ∷ bytes.now)) }
{
    match bytes {
        [b'r', b'e', b'e'] => Some(Step::Free),
        [b'r', b'o', b'n', b't', b' ', rest @ ..] => {
            let Some((writer, kind)) = front_of(rest) else {
                return None;
            };
            Some(Step::Front(writer, kind))
        }
        [b'i', b'l', b'l', b' ', rest @ ..] => writer_of(rest).map(Step::Fill),
        _ => None,
    }
}

/// The writer and the kind that these bytes are the text of, parted by one space.
fn front_of(bytes: &[u8]) -> Option<(Ix, Kind)>
    ensures some { IfSome result (λ front. bytes.now ≡ digit front.0 ∷ 32 ∷ kind_text front.1) }
    ensures fits { IfSome result (λ front. FitsKind front.1) }
    ensures none { IfNone result ((writer : Ix) (kind : Kind) → FitsKind kind
        → bytes.now ≡ digit writer ∷ 32 ∷ kind_text kind → ⊥) }
{
    match bytes {
        [writer, b' ', kind @ ..] => {
            let Some(writer) = ix_of(*writer) else {
                return None;
            };
            let Some(kind) = kind_of(kind) else {
                return None;
            };
            Some((writer, kind))
        }
        _ => None,
    }
}

/// The writer that these bytes are the text of: one digit.
fn writer_of(bytes: &[u8]) -> Option<Ix>
    ensures some { IfSome result (λ writer. bytes.now ≡ digit writer ∷ []) }
    ensures none { IfNone result ((writer : Ix) → bytes.now ≡ digit writer ∷ [] → ⊥) }
{
    match bytes {
        [byte] => ix_of(*byte),
        _ => None,
    }
}
