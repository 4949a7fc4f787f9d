ghost use Rattle.std.specs.Prelude.{◌≡◌, [], ◌∷◌, IfOk};
ghost use Rattle.std.specs.Arc.{arc_value};
ghost use Rattle.chronicle.specs.History.{entries};
ghost use Rattle.chronicle.specs.Shown.{MayTake};
ghost use Rattle.taxo_cache.specs.Seen.{SeesLabels};
ghost use Rattle.index_state.specs.Frames.{index_frame};
ghost use Rattle.pair_manager.specs.Published.{ArePublications, pair_frame, seen_of};
ghost use Rattle.pair_manager.specs.Passes.{IsOf, IsFirst, all_seen};

use crate::labels::Opened;
use chronicle::{Chronicle, Standing, Token};
use facet_config::FacetsConfig;
use facet_names::{NoMemory, Path};
use index_state::Operation;
use pair_manager::{CommitPoint, Manager, Pass, Publication};
use std::alloc::Global;
use std::sync::{Arc, Wait};
use taxo_cache::Name;
use taxo_writer::TaxoWriter;

// A value for the commits' chronicle: nothing is committed.
#[derive(Drop)]
struct Commits {
    operations: Token<Operation>,
    labels: Token<Path>,
    config: Arc<FacetsConfig>,
}

impl Standing for Commits {
    ghost use Rattle.std.specs.Prelude.{◌≡◌, [], ◌∷◌};
    ghost use Rattle.std.specs.Arc.{arc_value};
    ghost use Rattle.facet_model.specs.ConfigTexts.{config_texts};

    type Entry = CommitPoint;

    ghost stands = { λ _ points. points ≡ [] };

    ghost opening = { λ _. [] };

    ghost frame = { λ c. record {
      numbers = [];
      texts = config_texts (arc_value c.config);
      identities = c.operations.identity ∷ c.labels.identity ∷ [];
    } };
}

/// A manager over no documents, and two passes.
#[derive(Drop)]
pub struct Begun<N: Name> {
    /// The manager.
    pub manager: Manager<N>,
    /// The pass of session 0.
    pub first: Pass,
    /// Another pass, made from the first one.
    pub second: Pass,
    ghost own: { IsOf manager first },
    ghost own_second: { IsOf manager second },
}

// Makes two passes of these first tokens. The chronicle of their commits is dropped.
fn passes_of<N: Name>(
    alloc: Global,
    manager: &Manager<N>,
    mut labels: Token<Path>,
    mut operations: Token<Operation>,
    mut pairs: Token<Publication>,
    config: Arc<FacetsConfig>,
) -> Result<(Pass, Pass), NoMemory>
    requires own { labels.identity ≡ manager.now.writer.labels }
    requires labels { MayTake labels × SeesLabels labels × (labels.number ≡ 0) × (labels.made ≡ 0) }
    requires operations { IsFirst operations manager.now.operations [] }
    requires pairs { IsFirst pairs manager.now.pairs (seen_of operations labels ∷ []) }
    requires right { ArePublications labels.seen operations.seen (entries pairs.seen) }
    requires index_frame { operations.frame ≡ index_frame (arc_value config) 1000000 manager.now.writer.labels }
    requires pair_frame { pairs.frame ≡ pair_frame (arc_value config) manager.now.operations manager.now.writer.labels }
    ensures first { IfOk result (λ r. IsOf manager.now r.0) }
    ensures second { IfOk result (λ r. IsOf manager.now r.1) }
    ensures none { IfOk result (λ r. (r.0.operations.seen ≡ []) × (r.1.operations.seen ≡ [])) }
    ensures numbers { IfOk result (λ r. (r.0.operations.number ≡ 0) × (r.1.operations.number ≡ 1)) }
    ensures frame { IfOk result (λ r. r.0.operations.frame ≡ operations.frame) }
    ensures published { IfOk result (λ r. entries r.0.pairs.seen ≡ all_seen r.0 ∷ []) }
{
    let value = Commits {
        operations: manager.operations().note(&mut operations),
        labels: manager.writer().note(&mut labels),
        config,
    };
    let Ok((chronicle, mut commits)) = Chronicle::open(alloc, value) else {
        return Err(NoMemory);
    };
    let second = Pass {
        labels: manager.writer().token(&mut labels),
        operations: manager.operations().token(&mut operations),
        pairs: manager.pairs().token(&mut pairs),
        commits: chronicle.token(&mut commits),
    };
    let first = Pass {
        labels,
        operations,
        pairs,
        commits,
    };
    Ok((first, second))
}

/// Publishes the pair of no documents, over these labels. The cache has 16 stripes of 4,096 paths each, and the limits
/// are 1,000,000 labels and documents. Errors: out of memory.
pub fn begin<N: Name, R: Wait>(rt: &R, alloc: Global, opened: Opened) -> Result<Begun<N>, NoMemory>
    requires { opened.labels ≡ N.labels }
    ensures writer { IfOk result (λ b. b.manager.writer ≡ record { labels = opened.labels; limit = 1000000 }) }
    ensures none { IfOk result (λ b. (b.first.operations.seen ≡ []) × (b.second.operations.seen ≡ [])) }
    ensures numbers { IfOk result (λ b. (b.first.operations.number ≡ 0) × (b.second.operations.number ≡ 1)) }
    ensures frame { IfOk result (λ b. b.first.operations.frame ≡ index_frame [] 1000000 opened.labels) }
    ensures published { IfOk result (λ b. entries b.first.pairs.seen ≡ all_seen b.first ∷ []) }
{
    let Opened {
        keys,
        labels,
        mut first,
    } = opened;
    let config = Arc::new(alloc, FacetsConfig::new(alloc, keys))?;
    let again = Arc::try_clone(&config)?;
    let writer = TaxoWriter::<N>::open(alloc, keys, labels, &mut first, 16, 4096, 1_000_000)?;
    let view = writer.snapshot(rt, &mut first)?;
    let (manager, operations, pairs) = Manager::open(
        alloc,
        keys,
        writer,
        &mut first,
        view,
        Vec::new(alloc),
        config,
        1_000_000,
    )?;
    let (first, second) = passes_of(alloc, &manager, first, operations, pairs, again)?;
    Ok(Begun {
        manager,
        first,
        second,
    })
}
