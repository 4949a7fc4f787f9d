ghost use Rattle.std.specs.Prelude.{◌<◌};

/// Pseudo-random numbers: the linear congruential generator of Knuth's MMIX. They are the same in each test.
#[derive(Drop)]
pub struct Draws {
    /// The last number, or the seed.
    pub state: u64,
}

impl Draws {
    /// Draws a number from 0 to 9.
    pub fn digit(&mut self) -> u8
        ensures { result < 10 }
    {
        self.state = self
            .state
            .wrapping_mul(6364136223846793005)
            .wrapping_add(1442695040888963407);
        ((self.state >> 33) % 10) as u8
    }

    /// Returns true for about half of the draws.
    pub fn one_in_two(&mut self) -> bool {
        self.digit() < 5
    }
}
