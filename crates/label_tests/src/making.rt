//! Paths, documents and labels for the tests.
ghost use Rattle.std.specs.Prelude.{◌≡◌, ◌<◌, IfOk};
ghost use Rattle.facet_names.specs.Labels.{GoesOn, above, stands};

use facet_model::Document;
use facet_names::{NoMemory, Path};
use std::alloc::Global;
use std::test::Fail;
use taxo_list::{Labelled, TaxoView, Taxonomy};
use test_keys::fixed_keys;

/// Returns the path whose components are between slashes.
pub fn path(alloc: Global, text: &str) -> Result<Path, Fail> {
    let mut parts = Vec::new(alloc);
    for part in text.split("/") {
        parts.push(part)?;
    }
    Ok(Path::of(alloc, &parts)?)
}

/// Returns a document with these labels, which are paths between slashes.
pub fn document(alloc: Global, id: &str, labels: &[&str]) -> Result<Document, Fail> {
    let mut facets = Vec::new(alloc);
    for label in labels {
        facets.push(path(alloc, *label)?)?;
    }
    Ok(Document::new(alloc, id, "", facets)?)
}

fn has_parent(alloc: Global, list: &Taxonomy, path: &Path) -> Result<bool, NoMemory>
    ensures { IfOk result (λ b. b ≡ stands list.now (above path.now)) }
{
    // By its contract, the list has the root.
    let _ = list.size();
    match path.parent(alloc)? {
        Some(parent) => Ok(list.find(&parent).is_some()),
        None => Ok(true),
    }
}

/// Adds a label whose parent is in the list.
pub fn put_path(alloc: Global, list: &mut Taxonomy, path: &Path) -> Result<(), Fail>
    ensures { GoesOn list.old list.new }
{
    if !has_parent(alloc, list, path)? {
        return Err("no parent".into());
    }
    list.add(path, 20_000)?;
    Ok(())
}

// Adds a label whose parent is in the list.
fn put(alloc: Global, list: &mut Taxonomy, text: &str) -> Result<(), Fail>
    ensures { GoesOn list.old list.new }
{
    let path = path(alloc, text)?;
    put_path(alloc, list, &path)
}

/// Adds these labels.
pub fn put_all(alloc: Global, list: &mut Taxonomy, labels: &[&str]) -> Result<(), Fail>
    ensures { GoesOn list.old list.new }
{
    for label in labels {
        put(alloc, list, *label)?;
    }
    Ok(())
}

/// Returns a list of these labels.
pub fn listed(alloc: Global, labels: &[&str]) -> Result<Taxonomy, Fail> {
    let mut list = Taxonomy::new(alloc, fixed_keys()?)?;
    put_all(alloc, &mut list, labels)?;
    Ok(list)
}

/// Returns a view of these labels.
pub fn viewed(alloc: Global, labels: &[&str]) -> Result<TaxoView, Fail> {
    let list = listed(alloc, labels)?;
    Ok(list.view()?)
}

/// The labels of five books, in the order in which they were added.
pub const BOOKS: &[&str] = &[
    "Author",
    "Author/Bob",
    "Publish Date",
    "Publish Date/2010",
    "Publish Date/2010/10",
    "Publish Date/2010/10/15",
    "Author/Lisa",
    "Publish Date/2010/10/20",
    "Publish Date/2012",
    "Publish Date/2012/1",
    "Publish Date/2012/1/1",
    "Author/Susan",
    "Publish Date/2012/1/7",
    "Author/Frank",
    "Publish Date/1999",
    "Publish Date/1999/5",
    "Publish Date/1999/5/5",
];
