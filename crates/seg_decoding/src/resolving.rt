//! The ordinals of labels in a list.
ghost use Rattle.std.specs.Prelude.{◌≡◌, Some, IsTrue, All, IfOk, OnOk, map, slice_get};
ghost use Rattle.std.specs.List.{list_all};
ghost use Rattle.facet_names.specs.Labels.{prefixes, stands};
ghost use Rattle.facet_model.specs.CountedPaths.{AreResolved};
ghost use Rattle.seg_documents.specs.Entries.{IsShort};

use facet_model::Resolved;
use facet_names::{NoMemory, Path};
use std::alloc::Global;
use taxo_list::Taxonomy;

// Returns the ordinals of a path's prefixes, the dimension's first.
fn resolve(alloc: Global, labels: &Taxonomy, path: &Path) -> Result<Resolved, NoMemory>
    requires { IsTrue (list_all (stands labels.now) (prefixes path.now)) }
    ensures ordinals { IfOk result (λ r. map (slice_get labels.now) r ≡ map Some (prefixes path.now)) }
    ensures short { IsShort path.now }
{
    let mut ords = Vec::with_capacity(alloc, path.len())?;
    for n in 0..path.len() {
        let prefix = path.front(alloc, n + 1)?;
        let ord = labels.find(&prefix).unwrap();
        ords.push(ord)?;
    }
    Ok(Resolved::new(ords))
}

/// Returns the ordinals of the prefixes of each path. Errors: out of memory.
pub(crate) fn resolve_all(
    alloc: Global,
    labels: &Taxonomy,
    paths: &[Path],
) -> Result<Vec<Resolved>, NoMemory>
    requires { IsTrue (list_all (λ path. list_all (stands labels.now) (prefixes path)) paths.now) }
    ensures ordinals { IfOk result (λ v. AreResolved labels.now paths.now v.items) }
    ensures short { OnOk result (All IsShort paths.now) }
{
    let mut resolved = Vec::with_capacity(alloc, paths.len())?;
    for path in paths {
        let ordinals = resolve(alloc, labels, path)?;
        resolved.push(ordinals)?;
    }
    Ok(resolved)
}
