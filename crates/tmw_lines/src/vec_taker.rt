ghost use Rattle.std.specs.Prelude.{◌≡◌, ◌≤◌, ◌++◌, length, vec_capacity};
ghost use Rattle.std.proofs.Common.{◌∙◌, ap, append_assoc, arith, rules};

use crate::taker::{Stop, Taker};

/// A list takes items by holding them after those that it holds, and stops at one for which an allocation failed.
impl<I: Copy> Taker<I> for Vec<I> {
    ghost taking = { record {
      takes = λ old items new. (new.items ≡ old.items ++ items)
          × (vec_capacity old ≤ vec_capacity new);
      stops = λ old item new. (new.items ≡ old.items) × (vec_capacity old ≤ length new.items);
      counts = λ list count. Unit {0};
    } };

    fn take(&mut self, item: I) -> Result<(), Stop> {
        match self.push(item) {
            Ok(()) => Ok(()),
            Err(_) => Err(Stop),
        }
    }

    ghost takes_none = { Prim.search rules };

    ghost takes_more = { λ a b c xs ys taken more. (
      more.0 ∙ ap (λ zs. zs ++ ys) taken.0 ∙ append_assoc a.items xs ys,
      Prim.omega (arith, taken.1, more.1),
    ) };
}
