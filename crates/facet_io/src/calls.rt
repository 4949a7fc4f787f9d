use crate::failed::Failed;
use std::marker::Model;

/// Counts the calls of an object in memory and its faults, and decides which calls fail. Each count stays at 2^64 - 1
/// once it is there.
#[derive(Drop)]
pub struct Calls {
    failing: Vec<u64>,
    made: u64,
    faults: u64,
}

impl Model for Calls {
    ghost use Rattle.facet_io.specs.Memory.{CallState};

    ghost Value = { CallState };

    ghost view = { λ c. record {
      failing = c.failing.items;
      made = c.made;
      faults = c.faults;
    } };
}

impl Calls {
    ghost use Rattle.std.specs.Prelude.{◌≡◌, ◌≤◌, ◌↔◌, IsErr, IsTrue};
    ghost use Rattle.facet_io.specs.Faults.{Rose, CountsFaults};
    ghost use Rattle.facet_io.specs.Memory.{no_call, fails_next, after_call, with_fault};

    /// Returns counts of 0. Calls are counted from 1, and those in `failing` fail.
    pub fn new(failing: Vec<u64>) -> Calls
        ensures { result ≡ no_call failing.items }
    {
        Calls {
            failing,
            made: 0,
            faults: 0,
        }
    }

    /// Counts one more call. Errors: `Failed` if the call is one of those that are to fail; it counts as a fault.
    pub fn count(&mut self) -> Result<(), Failed>
        ensures after { self.new ≡ after_call self.old }
        ensures fails { IsErr result ↔ IsTrue (fails_next self.old) }
        ensures cause { CountsFaults self.old.faults self.new.faults (IsErr result) }
    {
        self.made = self.made.saturating_add(1);
        if self.failing.contains(&self.made) {
            self.count_fault();
            return Err(Failed);
        }
        Ok(())
    }

    /// Counts one more fault.
    pub fn count_fault(&mut self)
        ensures after { self.new ≡ with_fault self.old }
        ensures later { self.old.faults ≤ self.new.faults }
        ensures rose { Rose self.old.faults self.new.faults }
    {
        self.faults = self.faults.saturating_add(1);
    }

    /// Returns how many calls were made.
    pub fn made(&self) -> u64
        ensures { result ≡ self.now.made }
    {
        self.made
    }

    /// Returns how many faults were counted.
    pub fn faults(&self) -> u64
        ensures { result ≡ self.now.faults }
    {
        self.faults
    }
}
