use std::marker::Model;
use std::snapshot::Snapshot;

/// Counts the calls of a disk so far, for contracts only: for each call, how many changes were on record when it began.
///
/// Contracts see the whole list, so the count has no greatest value. The code keeps only the last entry.
#[derive(Drop)]
pub struct Clock {
    before: Option<Snapshot<Clock>>,
    last: usize,
}

impl Model for Clock {
    ghost use Rattle.std.specs.Prelude.{ℕ, List, length};
    ghost use Rattle.facet_disk.specs.Ticks.{ticks};

    ghost Value = { List ℕ };

    ghost view = { λ c. ticks c.before c.last };

    ghost size = { length };
}

impl Clock {
    ghost use Rattle.std.specs.Prelude.{◌≡◌, ◌++◌, ◌∷◌, []};

    /// Returns a clock before the first call.
    pub fn new() -> Clock
        ensures { result ≡ [] }
    {
        Clock {
            before: None,
            last: 0,
        }
    }

    /// Counts a call, which begins now. `changes` is how many changes are on record.
    pub fn tick(&mut self, changes: usize)
        ensures { self.new ≡ self.old ++ changes ∷ [] }
    {
        let before = Snapshot::of(&*self);
        self.before = Some(before);
        self.last = changes;
    }
}
