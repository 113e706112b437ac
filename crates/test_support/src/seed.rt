use tmw_events::Ix;

/// A sequence of numbers that seem drawn by chance, and are the same in each run.
#[derive(Debug, Drop)]
pub struct Seed {
    number: u64,
}

impl Seed {
    /// Begins the sequence.
    pub const fn new() -> Seed {
        Seed {
            number: 88172645463325252,
        }
    }

    /// Returns the next number.
    pub fn draw(&mut self) -> u64 {
        let mut number = self.number;
        number ^= number << 13;
        number ^= number >> 7;
        number ^= number << 17;
        self.number = number;
        number >> 8
    }

    /// Draws the name of one of so many threads or registers, at most four.
    pub fn draw_name(&mut self, count: u64) -> Ix {
        match self.draw() % count.max(1) {
            0 => Ix { number: 0 },
            1 => Ix { number: 1 },
            2 => Ix { number: 2 },
            _ => Ix { number: 3 },
        }
    }
}
