//! Fixed hash keys, for tests and measurements. The program draws its keys at random.
#![tactic(auto)]

use std::hash::RandomState;
use std::io;
use std::random::RandomSource;

// Returns zeros in place of random bytes.
struct Zeros;

impl RandomSource for Zeros {
    fn fill_bytes(&self, buf: &mut [u8]) -> io::Result<()> {
        buf.fill(0);
        Ok(())
    }
}

/// Returns the same hash keys in each process. It does not fail, since it reads no random numbers.
pub fn fixed_keys() -> io::Result<RandomState> {
    RandomState::new(&Zeros)
}
