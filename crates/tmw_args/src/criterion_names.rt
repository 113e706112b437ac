ghost use Rattle.std.specs.Prelude.{◌≡◌};
ghost use Rattle.tmw_args.specs.CriteriaAndMemories.{asked_named, criterion_named};

use tmw_defs::{Asked, Criterion};

/// Returns the criteria of this name: `opacity`, `strict` or `both`. No other name has any.
pub fn asked_named(name: &str) -> Option<Asked>
    ensures { result ≡ asked_named name.now }
{
    match name {
        "opacity" => Some(Asked::Opacity),
        "strict" => Some(Asked::Strict),
        "both" => Some(Asked::Both),
        _ => None,
    }
}

/// Returns the criterion of this name: `opacity` or `strict`. No other name has one.
pub fn criterion_named(name: &str) -> Option<Criterion>
    ensures { result ≡ criterion_named name.now }
{
    match name {
        "opacity" => Some(Criterion::Opacity),
        "strict" => Some(Criterion::Strict),
        _ => None,
    }
}
