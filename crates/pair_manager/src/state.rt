ghost use Rattle.std.specs.Prelude.{◌≡◌, IfOk};
ghost use Rattle.std.specs.Arc.{arc_value};
ghost use Rattle.pair_manager.specs.Published.{publication_of};
ghost use Rattle.pair_manager.specs.Kept.{IsPair, SaysAs};

use crate::pair::Pair;
use crate::publication::Publication;
use chronicle::{Standing, Token};
use facet_names::{NoMemory, Path};
use index_state::Operation;
use std::alloc::Global;
use std::marker::Model;
use std::sync::Arc;
use taxo_list::Labelled;

/// The value of the pairs chronicle: the last published pair. Its notes are stored next to it once more, since only
/// these can be copied.
#[derive(Drop)]
pub struct PairState {
    pub(crate) pair: Arc<Pair>,
    pub(crate) history: Token<Operation>,
    pub(crate) labels: Token<Path>,
}

impl Model for PairState {
    ghost use Rattle.std.specs.Arc.{arc_value};
    ghost use Rattle.pair_manager.specs.Published.{Published};
    ghost use Rattle.pair_manager.specs.Kept.{IsBeside};

    ghost Value = { Published };

    ghost view = { λ s. arc_value s.pair };

    ghost invariant = { λ s. IsBeside (arc_value s.pair) s.history s.labels };
}

impl Standing for PairState {
    ghost use Rattle.std.specs.Prelude.{[], ◌∷◌};
    ghost use Rattle.pair_manager.specs.Published.{StandsFor, publication_of, frame_of};

    type Entry = Publication;

    ghost stands = { λ pair publications. StandsFor pair publications };

    ghost opening = { λ pair. publication_of pair ∷ [] };

    ghost frame = { λ pair. frame_of pair };
}

impl PairState {
    // The pair, with its notes once more.
    pub(crate) fn new(
        alloc: Global,
        pair: Pair,
        history: Token<Operation>,
        labels: Token<Path>,
    ) -> Result<PairState, NoMemory>
        requires is { IsPair pair }
        requires history { SaysAs history pair.history }
        requires labels { SaysAs labels pair.labels }
        ensures { IfOk result (λ state. state ≡ pair) }
    {
        let pair = Arc::new(alloc, pair)?;
        Ok(PairState {
            pair,
            history,
            labels,
        })
    }

    // How many operations and labels the pair has.
    pub(crate) fn publication(&self) -> Publication
        ensures { result ≡ publication_of self.now }
    {
        Publication {
            operations: self.pair.operations(),
            labels: self.pair.view().size(),
        }
    }
}
