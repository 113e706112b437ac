ghost use Rattle.std.specs.Prelude.{List, [], ◌++◌, ◌≡◌};
ghost use Rattle.std.specs.Borrow.{ftrue};
ghost use Rattle.std.specs.Option.{option_to_list};

use std::fmt::{Debug, Error, Formatter, Write};
use std::marker::{Model, PhantomData};

/// A list that only clauses read. It takes no memory.
#[derive(Drop)]
pub struct GhostList<T> {
    of: PhantomData<T>,
    pub ghost items: { List T },
}

impl<T> Model for GhostList<T> {
    ghost also_owns = { λ _. ftrue };
}

impl<T> Debug for GhostList<T> {
    fn fmt<W: Write>(&self, f: &mut Formatter<W>) -> Result<(), Error> {
        f.write_str("GhostList")
    }
}

impl<T> GhostList<T> {
    /// Makes the list of no item.
    #[inline(always)]
    pub fn new() -> GhostList<T>
        ensures { result.items ≡ [] }
    {
        GhostList { of: PhantomData }
    }

    /// Returns these items and one more, if one is given.
    #[inline(always)]
    pub fn then(&self, _item: &Option<T>) -> GhostList<T>
        ensures { result.items ≡ self.now.items ++ option_to_list _item.now }
    {
        GhostList { of: PhantomData }
    }
}
