ghost use Rattle.std.specs.Prelude.{◌≡◌};
ghost use Rattle.tmw_args.specs.CriteriaAndMemories.{memory_named};

/// A transactional memory that the program has.
#[derive(Clone, Copy, PartialEq, Eq, Debug)]
pub enum Which {
    /// NOrec (Dalessandro, Spear and Scott 2010): one sequence lock, buffered writes, validation by value.
    NoRec,
    /// One lock, held from the begin of a transaction to its end.
    Lock,
    /// Faulty on purpose: neither a lock nor a validation.
    Torn,
}

impl Which {
    /// Returns the memory of this name: `norec`, `lock` or `torn`. No other name has one.
    pub fn named(name: &str) -> Option<Which>
        ensures { result ≡ memory_named name.now }
    {
        match name {
            "norec" => Some(Which::NoRec),
            "lock" => Some(Which::Lock),
            "torn" => Some(Which::Torn),
            _ => None,
        }
    }
}
