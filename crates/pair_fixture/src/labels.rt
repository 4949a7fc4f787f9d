ghost use Rattle.std.specs.Prelude.{◌≡◌, []};
ghost use Rattle.chronicle.specs.Frame.{empty_frame};
ghost use Rattle.chronicle.specs.Shown.{MayTake};
ghost use Rattle.taxo_cache.specs.Seen.{SeesLabels};

use chronicle::{Chronicle, Token};
use facet_names::Path;
use std::alloc::Global;
use std::hash::RandomState;
use taxo_list::Taxonomy;
use taxo_writer::LabelList;
use test_keys::fixed_keys;

/// A chronicle of only the root, with its first token, and fixed hash keys.
#[derive(Drop)]
pub struct Opened {
    /// The hash keys of labels, the same in each test.
    pub keys: RandomState,
    /// The chronicle.
    pub labels: Chronicle<LabelList>,
    /// Its first token.
    pub first: Token<Path>,
    ghost own: { first.identity ≡ labels },
    ghost rests: { MayTake first },
    ghost numbers: { (first.number ≡ 0) × (first.made ≡ 0) },
    ghost sees: { SeesLabels first },
    ghost none: { first.seen ≡ [] },
    ghost framed: { first.frame ≡ empty_frame },
}

/// Opens a chronicle of only the root. Returns `None` if it runs out of memory.
pub fn open_labels(alloc: Global) -> Option<Opened> {
    let keys = fixed_keys().ok()?;
    let list = Taxonomy::new(alloc, keys).ok()?;
    let (labels, first) = Chronicle::open(alloc, LabelList::new(list)).ok()?;
    Some(Opened {
        keys,
        labels,
        first,
    })
}
