ghost use Rattle.std.specs.Prelude.{◌≡◌, ◌<◌, ◌≤◌, IfSome, IsSome, ◌↔◌};

/// How many registers a run has at most.
pub const MOST_REGISTERS: usize = 8;

/// How many registers a run has: 1 to 8. They are numbered from 0.
#[derive(Clone, Copy, PartialEq, Eq, PartialOrd, Ord, Debug)]
pub struct Registers {
    pub number: u8,
    pub ghost some: { 0 < number },
    pub ghost most: { number ≤ 8 },
}

impl Registers {
    /// Returns this many registers, if they are 1 to 8.
    pub const fn new(number: u8) -> Option<Registers>
        ensures range { IsSome result ↔ ((0 < number) × (number ≤ 8)) }
        ensures value { IfSome result (λ registers. registers.number ≡ number) }
    {
        if 0 < number && number <= 8 {
            Some(Registers { number })
        } else {
            None
        }
    }

    /// Returns how many registers there are, 1 to 8.
    pub const fn get(&self) -> u8
        ensures value { result ≡ self.now.number }
        ensures some { 0 < result }
        ensures most { result ≤ 8 }
    {
        self.number
    }
}
