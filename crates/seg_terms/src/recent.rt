ghost use Rattle.std.specs.Prelude.{◌<◌};

use facet_names::NoMemory;
use std::alloc::Global;
use std::hash::{FoldHasher, Hasher};

const SLOTS: usize = 1024;

/// Numbers of recent terms, each in the slot of its term. A number is a guess: two terms may share a slot, so the
/// caller compares the term. Somebody who chooses the terms can make many that share one slot; then each costs one
/// comparison more.
#[derive(Drop)]
pub struct RecentTerms {
    numbers: Vec<usize>,
}

/// Returns the slot of a term, by a hash without keys, which is faster than one with keys.
pub fn slot_of(term: &str) -> usize
    ensures { result < 1024 }
{
    let mut hasher = FoldHasher::default();
    hasher.write(term.as_bytes());
    (hasher.finish() % SLOTS as u64) as usize
}

impl RecentTerms {
    /// Returns slots that all have the number 0. Errors: out of memory.
    pub fn new(alloc: Global) -> Result<RecentTerms, NoMemory> {
        let numbers = vec![in alloc; 0usize; SLOTS]?;
        Ok(RecentTerms { numbers })
    }

    /// Returns the number in a slot, or 0.
    pub fn at(&self, slot: usize) -> usize {
        match self.numbers.get(slot) {
            Some(number) => *number,
            None => 0,
        }
    }

    /// Stores a number in a slot.
    pub fn put(&mut self, slot: usize, number: usize) {
        if let Some(old) = self.numbers.get_mut(slot) {
            *old = number;
        }
    }
}
