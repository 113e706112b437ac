ghost use Rattle.std.specs.Prelude.{ℕ, ◌+◌, ◌<◌, ◌^◌, List, [], ◌∷◌, ◌++◌, OnOk, OnErr};
ghost use Rattle.tmw_lines.specs.Taker.{Taking};

/// What a taker answers at the last item that it is given.
#[derive(Clone, Copy, PartialEq, Eq, Debug)]
pub struct Stop;

/// What takes the items of lines, one after another as they are read, until it stops.
pub trait Taker<I> {
    /// What it means that it takes items, that it stops at one, and that it may have taken so many.
    ghost taking: { Taking Self I };

    /// Takes an item, or stops at it. The state has to allow that fewer than 2^40 were taken before.
    fn take(&mut self, item: I) -> Result<(), Stop>
        requires { (count : ℕ) × (count < 2 ^ 40) × taking.counts self.old count }
        ensures taken { OnOk result (taking.takes self.old (item ∷ []) self.new) }
        ensures stops { OnErr result (taking.stops self.old item self.new) }
        ensures counted { OnOk result
            ((count : ℕ) → taking.counts self.old count → taking.counts self.new (count + 1)) };

    /// One that stays as it is has taken no item. One that has taken none need not be as it was.
    ghost takes_none: { (s : Self) → taking.takes s [] s };
    /// What it takes in two steps it has taken in one: the items of the first step, and then those of the second.
    ghost takes_more: { (a b c : Self) (xs ys : List I) → taking.takes a xs b → taking.takes b ys c
        → taking.takes a (xs ++ ys) c };
}
