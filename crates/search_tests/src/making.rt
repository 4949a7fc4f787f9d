//! Labels, documents and segments as they are stored.
ghost use Rattle.std.specs.Prelude.{◌≡◌, List, IfOk, map};
ghost use Rattle.std.specs.Arc.{arc_value};
ghost use Rattle.facet_model.specs.Documents.{Doc};
ghost use Rattle.facet_model.specs.Stored.{Decodes, IsSegmentOf};
ghost use Rattle.facet_names.specs.Labels.{above, stands};
ghost use Rattle.seg_documents.specs.Decoding.{doc_in};

use facet_config::FacetsConfig;
use facet_model::{Counted, Document};
use facet_names::{NoMemory, Path};
use seg_decoding::open_stored;
use seg_file::{Entry, Segment};
use std::alloc::Global;
use std::sync::Arc;
use std::test::Fail;
use taxo_list::{Labelled, Taxonomy};
use test_keys::fixed_keys;

fn has_parent(alloc: Global, list: &Taxonomy, path: &Path) -> Result<bool, NoMemory>
    ensures { IfOk result (λ b. b ≡ stands list.now (above path.now)) }
{
    // By its contract, the list has the root.
    let _ = list.size();
    match path.parent(alloc)? {
        Some(parent) => Ok(list.find(&parent).is_some()),
        None => Ok(true),
    }
}

// Returns the ordinal of a path whose parent is in the list.
fn put(alloc: Global, list: &mut Taxonomy, path: &Path) -> Result<u32, Fail> {
    if !has_parent(alloc, list, path)? {
        return Err("a parent".into());
    }
    match list.add(path, 1_000_000) {
        Ok(ord) => Ok(ord),
        Err(_) => Err("room for a label".into()),
    }
}

/// The labels of a document, and their ordinals.
#[derive(Drop)]
pub struct Labels {
    facets: Vec<Path>,
    leaves: Vec<u32>,
}

impl Labels {
    /// Returns no label.
    pub fn new(alloc: Global) -> Labels {
        Labels {
            facets: Vec::new(alloc),
            leaves: Vec::new(alloc),
        }
    }

    /// Adds a label. The label and those above it are added to the list.
    pub fn add(&mut self, alloc: Global, list: &mut Taxonomy, parts: &[&str]) -> Result<(), Fail> {
        let mut leaf = 0;
        for len in 0..parts.len() {
            let path = Path::of(alloc, &parts[..len + 1])?;
            leaf = put(alloc, list, &path)?;
        }
        self.facets.push(Path::of(alloc, parts)?)?;
        self.leaves.push(leaf)?;
        Ok(())
    }
}

// Returns each of the ordinals once, rising.
fn counted(alloc: Global, leaves: &[u32]) -> Result<Counted, Fail> {
    let mut ords = leaves.to_vec(alloc)?;
    ords.sort_unstable();
    ords.dedup();
    Ok(Counted::new(ords))
}

/// Returns a document for which only the labels are counted, as it is if no dimension has both flags.
pub fn entry(alloc: Global, id: &str, text: &str, labels: Labels) -> Result<Entry, Fail> {
    let Labels { facets, leaves } = labels;
    let doc = Document::new(alloc, id, text, facets)?;
    let counted = counted(alloc, &leaves)?;
    if leaves.len() != doc.facets().len() || counted.ords().len() > 8192 {
        return Err("an entry".into());
    }
    Ok(Entry {
        doc,
        leaves,
        counted,
    })
}

// Returns the segment of these documents, written and read.
fn stored(
    alloc: Global,
    config: &FacetsConfig,
    list: &Taxonomy,
    entries: &[Entry],
) -> Result<Segment, Fail>
    ensures { IfOk result (λ s. IsSegmentOf list.now config.now s (map (doc_in list.now) s.records)) }
{
    if entries.is_empty() || entries.len() > 1_000_000 {
        return Err("as many documents".into());
    }
    let keys = fixed_keys()?;
    let built = Segment::build(alloc, keys, entries)?;
    let bytes = built.bytes().to_vec(alloc)?;
    match open_stored(alloc, keys, config, list, list.size(), built.docs(), bytes) {
        Ok(segment) => Ok(segment),
        Err(_) => Err("a segment".into()),
    }
}

/// Returns the segments of these documents.
pub fn all_stored(
    alloc: Global,
    config: &FacetsConfig,
    list: &Taxonomy,
    batches: &[Vec<Entry>],
) -> Result<Vec<Arc<Segment>>, Fail>
    ensures { IfOk result (λ v. (docs : List Doc) × Decodes list.now config.now (map arc_value v.items) docs) }
{
    let mut segments = Vec::new(alloc);
    for entries in batches {
        let segment = stored(alloc, config, list, entries)?;
        segments.push(Arc::new(alloc, segment)?)?;
    }
    Ok(segments)
}
