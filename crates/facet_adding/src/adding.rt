ghost use Rattle.std.specs.Prelude.{◌≡◌, List, ℕ, All, IfOk, OnOk, flat_map, length, map};
ghost use mathlib.Core.List.{IsPrefix};
ghost use Rattle.facet_config.specs.Expanding.{AreAsLong};
ghost use Rattle.facet_model.specs.Accepts.{Accepts};
ghost use Rattle.facet_model.specs.ConfigTexts.{config_texts};
ghost use Rattle.facet_model.specs.CountedPaths.{AreResolved};
ghost use Rattle.facet_model.specs.Histories.{add};
ghost use Rattle.facet_names.specs.Labels.{IsLabelList, prefixes};
ghost use Rattle.seg_documents.specs.Entries.{IsShort};
ghost use Rattle.taxo_adding.specs.Several.{AddsInTurn};
ghost use Rattle.pair_manager.specs.Passes.{IsOf, SamePass};
ghost use Rattle.facet_adding.specs.Adding.{HasTried, IsEntryWhere, leaf_of};

use facet_config::{DocFault, FacetsConfig};
use facet_model::{Document, Resolved};
use facet_names::{NoMemory, Path};
use index_state::AppendFault;
use pair_manager::{Manager, Pass};
use seg_file::Entry;
use std::alloc::Global;
use std::sync::Wait;
use taxo_cache::Name;
use taxo_list::TaxoFault;

/// Why a document was not added.
#[derive(Drop, Clone, Copy, Debug, PartialEq, Eq)]
pub enum AddFault {
    /// The config rejects the document.
    Broken { fault: DocFault },
    /// The list has `size` labels, with the root, and one more does not fit.
    LabelsFull { size: u64 },
    /// There are `count` documents, and one more does not fit.
    DocsFull { count: u64 },
    /// Out of memory.
    NoMemory,
}

// Returns the path's own ordinal, which is the last one.
fn leaf_of(path: &Path, ordinals: &Resolved) -> u32
    requires as_long { length ordinals.now ≡ length path.now }
    ensures leaf { result ≡ leaf_of ordinals.now }
    ensures short { IsShort path.now }
{
    ordinals.prefixes()[path.len() - 1]
}

// Returns the own ordinal of each path.
fn leaves_of(alloc: Global, paths: &[Path], resolved: &[Resolved]) -> Result<Vec<u32>, NoMemory>
    requires as_long { AreAsLong paths.now resolved.now }
    ensures leaves { IfOk result (λ v. v.items ≡ map leaf_of resolved.now) }
    ensures short { OnOk result (All IsShort paths.now) }
{
    let mut leaves = Vec::with_capacity(alloc, paths.len())?;
    for at in 0..paths.len() {
        leaves.push(leaf_of(&paths[at], &resolved[at]))?;
    }
    Ok(leaves)
}

// Returns the document with its ordinals, given those of the prefixes of its labels.
fn entry_of(
    alloc: Global,
    config: &FacetsConfig,
    doc: Document,
    resolved: &[Resolved],
) -> Result<Entry, NoMemory>
    requires known { (labels : List (List (List ℕ))) × IsLabelList labels × AreResolved labels doc.labels resolved.now }
    requires accepted { Accepts config.now doc }
    ensures doc { IfOk result (λ e. e.doc ≡ doc) }
    ensures entry { IfOk result (IsEntryWhere config.now resolved.now) }
{
    let leaves = leaves_of(alloc, doc.facets(), resolved)?;
    let counted = config.expand(alloc, &doc, resolved)?;
    Ok(Entry {
        doc,
        leaves,
        counted,
    })
}

/// Adds a document that the config accepts after all others, and returns its place, from 0. It makes the document's
/// entry before it takes the lock of the operations; in that lock, the index may still have to grow.
///
/// Locks: if a label is missing from the cache, that of the labels, once for all labels; then that of the operations.
/// It holds one at a time.
///
/// Errors: `LabelsFull` and `DocsFull` at the limits of the settings; out of memory. Labels that were added before
/// stay.
pub fn add_to<N: Name, R: Wait>(
    rt: &R,
    alloc: Global,
    manager: &Manager<N>,
    config: &FacetsConfig,
    pass: &mut Pass,
    session: u32,
    doc: Document,
) -> Result<u64, AddFault>
    requires own { IsOf manager.now pass.old }
    requires config { config_texts config.now ≡ pass.old.operations.frame.texts }
    requires accepted { Accepts config.now doc }
    ensures same { SamePass pass.old pass.new }
    ensures rest { (pass.new.pairs ≡ pass.old.pairs) × (pass.new.commits ≡ pass.old.commits) }
    ensures more { IsPrefix pass.old.labels.seen pass.new.labels.seen }
    ensures adds { AddsInTurn (flat_map prefixes doc.labels) manager.now.writer.limit pass.old.labels pass.new.labels }
    ensures tried { HasTried manager.now.writer.limit session (add doc) doc pass.old pass.new result }
{
    let resolved = match manager.resolve_each(rt, pass, doc.facets()) {
        Ok(resolved) => resolved,
        Err(TaxoFault::LabelsFull { size }) => return Err(AddFault::LabelsFull { size }),
        Err(TaxoFault::NoMemory) => return Err(AddFault::NoMemory),
    };
    let Ok(entry) = entry_of(alloc, config, doc, &resolved) else {
        return Err(AddFault::NoMemory);
    };
    match manager.append(rt, pass, session, entry) {
        Ok(at) => Ok(at),
        Err(AppendFault::DocsFull { count }) => Err(AddFault::DocsFull { count }),
        Err(AppendFault::NoMemory) => Err(AddFault::NoMemory),
    }
}
