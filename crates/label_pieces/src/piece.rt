ghost use Rattle.std.specs.Prelude.{◌≡◌, ◌≤◌, ◌<◌, ◌+◌, [], Some, length, position, slice_get, OnOk, OnErr};
ghost use Rattle.facet_names.specs.Paths.{path_eq};
ghost use Rattle.facet_names.specs.Labels.{with_label};

use crate::steps::Steps;
use facet_names::{NoMemory, Path};
use indexmap::IndexSet;
use std::alloc::Global;
use std::hash::RandomState;
use std::marker::Model;
use std::sync::ledger::Ledger;

// how many labels a full piece has
pub(crate) const PIECE: usize = 4_096;

/// At most 4,096 labels in order, found by hash. A piece in an `Arc` never changes.
#[derive(Drop)]
pub struct Piece {
    labels: IndexSet<Path, RandomState>,
}

impl Model for Piece {
    ghost use Rattle.std.specs.Prelude.{◌≤◌, ℕ, List, length};

    ghost Value = { List (List (List ℕ)) };

    ghost view = { λ p. p.labels.keys };

    ghost invariant = { λ p. length p.labels.keys ≤ 4096 };
}

impl Piece {
    /// Returns a piece without a label. `keys` are hash keys; no result depends on them. It allocates nothing.
    pub fn new(alloc: Global, keys: RandomState) -> Piece
        ensures { result ≡ [] }
    {
        Piece {
            labels: IndexSet::with_hasher(alloc, keys),
        }
    }

    /// Adds a label after the others, unless it is among them. It counts one step.
    ///
    /// Errors: out of memory. Then the piece does not change.
    pub fn push<L: Ledger>(&mut self, path: Path, steps: &mut Steps<L>) -> Result<(), NoMemory>
        requires room { length self.old < 4096 }
        ensures ok { OnOk result (self.new ≡ with_label self.old path) }
        ensures err { OnErr result (self.new ≡ self.old) }
        ensures steps { steps.new ≡ steps.old + 1 }
    {
        steps.tick();
        self.labels.insert(path)?;
        Ok(())
    }

    /// Returns the place of a label, or `None` if it is not among them, by one look-up in a hash table.
    pub fn find(&self, path: &Path) -> Option<usize>
        ensures { result ≡ position (path_eq path.now) self.now }
    {
        self.labels.get_index_of(path)
    }

    /// Returns how many labels there are.
    pub fn len(&self) -> usize
        ensures length { result ≡ length self.now }
        ensures few { result ≤ 4096 }
    {
        self.labels.len()
    }

    /// Returns the label at a place, from 0, in constant time.
    pub fn path_at(&self, at: usize) -> &Path
        requires { at < length self.now }
        ensures { slice_get self.now at ≡ Some result.now }
    {
        &self.labels.as_slice()[at]
    }
}
