ghost use Rattle.std.specs.Prelude.{◌≡◌, IfOk};
ghost use Rattle.std.specs.Arc.{arc_value};

use crate::pair::Pair;
use facet_names::NoMemory;
use std::marker::Model;
use std::sync::Arc;

/// A pair that was acquired, like a searcher of Lucene's `SearcherTaxonomyManager`. It does not change until it is
/// released, whatever is published meanwhile.
#[derive(Drop)]
pub struct Lease {
    pub(crate) pair: Arc<Pair>,
}

impl Model for Lease {
    ghost use Rattle.std.specs.Arc.{arc_value};
    ghost use Rattle.pair_manager.specs.Published.{Published};

    ghost Value = { Published };

    ghost view = { λ l. arc_value l.pair };
}

impl Lease {
    /// Returns the pair, each time the same one.
    pub fn pair(&self) -> &Pair
        ensures { result.now ≡ self.now }
    {
        &self.pair
    }

    /// Returns a shared reference to the pair, which keeps it in memory after the lease is released. It copies nothing.
    ///
    /// Errors: out of memory, if there are too many references.
    pub fn share(&self) -> Result<Arc<Pair>, NoMemory>
        ensures { IfOk result (λ p. arc_value p ≡ self.now) }
    {
        Ok(Arc::try_clone(&self.pair)?)
    }
}

/// Releases a pair. Its memory is freed once nobody holds it any more.
pub fn release(lease: Lease) {
    let _ = lease;
}
