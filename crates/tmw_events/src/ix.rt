ghost use Rattle.std.specs.Prelude.{◌≡◌, ◌<◌};
ghost use Rattle.std.specs.Prelude.{IfSome, IsSome, ◌↔◌};

/// How many threads a run has at most.
pub const MOST_THREADS: usize = 8;

/// The number of a thread or of a register: 0 to 7.
#[derive(Clone, Copy, PartialEq, Eq, PartialOrd, Ord, Debug)]
pub struct Ix {
    pub number: u8,
    pub ghost below: { number < 8 },
}

impl Ix {
    /// Returns the thread or register of this number, if it is below 8.
    pub const fn new(number: u8) -> Option<Ix>
        ensures range { IsSome result ↔ (number < 8) }
        ensures value { IfSome result (λ ix. ix.number ≡ number) }
    {
        if number < 8 {
            Some(Ix { number })
        } else {
            None
        }
    }

    /// Returns the number, below 8.
    pub const fn get(&self) -> u8
        ensures value { result ≡ self.now.number }
        ensures below { result < 8 }
    {
        self.number
    }
}
