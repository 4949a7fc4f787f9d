ghost use Rattle.std.specs.Prelude.{◌≡◌, ◌<◌, ◌≤◌, ◌^◌, ◌*◌, ◌+◌, ◌++◌, ◌∷◌, [], List, ℕ, IfOk, IfSome, OnOk};
ghost use Rattle.std.specs.Prelude.{option_map, length, map, count_by, sum_by, unwrap_or, if◌then◌else◌, not, pos};
ghost use Rattle.std.specs.Prelude.{negsuc};
ghost use Rattle.std.specs.BTreeMap.{get, values};
ghost use Rattle.std.specs.List.{list_any};
ghost use Rattle.std.specs.Str.{bytes_eq};
ghost use Rattle.facet_model.specs.Documents.{has, count, dim_of};
ghost use Rattle.facet_model.specs.Flags.{Config, flags};
ghost use Rattle.facet_model.specs.Listing.{IsListing, counted_child};
ghost use Rattle.facet_model.specs.ResultViews.{result_view};
ghost use Rattle.facet_model.specs.Results.{IsTop};
ghost use Rattle.facet_model.specs.Words.{word_cmp};
ghost use Rattle.label_tests.specs.Plain.{child_of, with_part};

use facet_model::{Child, DimFlags, Document, FacetResult, Word};
use facet_names::{NoMemory, Path};
use std::alloc::Global;
use std::collections::BTreeMap;

fn child_part<'a>(path: &Path, label: &'a Path) -> Option<&'a str>
    ensures child { option_map (λ s. s.now) result ≡ child_of path.now label.now }
    ensures some { IfSome result (λ s. 0 < length s.now) }
    ensures short { IfSome result (λ s. length s.now ≤ 1024) }
{
    if label.len() > path.len() && label.is_under(path) {
        Some(label.part(path.len()))
    } else {
        None
    }
}

fn is_among(parts: &[Word], part: &str) -> bool
    ensures { result ≡ list_any (bytes_eq part.now) parts.now }
{
    parts.iter().any(|known| part == known.text())
}

fn note(alloc: Global, parts: &mut Vec<Word>, part: Option<&str>) -> Result<(), NoMemory>
    requires some { IfSome part (λ s. 0 < length s.now) }
    requires short { IfSome part (λ s. length s.now ≤ 1024) }
    ensures { OnOk result (parts.new.items ≡ with_part parts.old.items (option_map (λ s. s.now) part.entry)) }
{
    let Some(part) = part else {
        return Ok(());
    };
    if !is_among(parts, part) {
        parts.push(Word::new(alloc, part)?.unwrap())?;
    }
    Ok(())
}

/// Returns the components directly below the path in a document's labels, each once.
fn parts_of(alloc: Global, doc: &Document, path: &Path) -> Result<Vec<Word>, NoMemory>
    ensures each { IfOk result (λ v. (q : List ℕ) → count_by (bytes_eq q) v.items
        ≡ (if has doc.now (path.now ++ q ∷ []) then 1 else 0)) }
    ensures few { IfOk result (λ v. length v.items ≤ 256) }
{
    let mut parts = Vec::new(alloc);
    for label in doc.facets() {
        note(alloc, &mut parts, child_part(path, label))?;
    }
    Ok(parts)
}

/// Returns the components directly below the path, once for each document that has them.
fn parts_below(alloc: Global, docs: &[Document], path: &Path) -> Result<Vec<Word>, NoMemory>
    ensures each { IfOk result (λ v. (q : List ℕ) → count_by (bytes_eq q) v.items
        ≡ count docs.now (path.now ++ q ∷ [])) }
    ensures few { IfOk result (λ v. length v.items ≤ 256 * length docs.now) }
{
    let mut parts = Vec::new(alloc);
    for doc in docs {
        let mut own = parts_of(alloc, doc, path)?;
        parts.append(&mut own)?;
    }
    Ok(parts)
}

fn tally(alloc: Global, parts: Vec<Word>) -> Result<BTreeMap<Word, u32>, NoMemory>
    requires { length parts.items < 2 ^ 32 }
    ensures counts { IfOk result (λ m. (q : List ℕ) → unwrap_or (get word_cmp m q) 0
        ≡ count_by (bytes_eq q) parts.items) }
    ensures positive { IfOk result (λ m. (q : List ℕ) → IfSome (get word_cmp m q) (λ n. 0 < n)) }
    ensures total { IfOk result (λ m. sum_by (λ n. n) (values m) ≡ length parts.items) }
    ensures few { IfOk result (λ m. length m.entries ≤ length parts.items) }
{
    let mut counts: BTreeMap<Word, u32> = BTreeMap::new(alloc);
    for part in parts {
        let next = counts.get(&part).copied().unwrap_or(0) + 1;
        counts.insert(part, next)?;
    }
    Ok(counts)
}

fn children_of(alloc: Global, counts: BTreeMap<Word, u32>) -> Result<Vec<Child>, NoMemory>
    ensures { IfOk result (λ v. map counted_child v.items ≡ counts.entries) }
{
    let mut children = Vec::new(alloc);
    for (part, count) in counts {
        children.push(Child { part, count })?;
    }
    Ok(children)
}

fn listing(alloc: Global, parts: Vec<Word>) -> Result<Vec<Child>, NoMemory>
    requires { length parts.items < 2 ^ 32 }
    ensures listing { IfOk result (λ v. IsListing (λ q. count_by (bytes_eq q) parts.items)
        (map counted_child v.items)) }
    ensures total { IfOk result (λ v. sum_by (λ c. c.1) (map counted_child v.items) ≡ length parts.items) }
    ensures few { IfOk result (λ v. length v.items ≤ length parts.items) }
{
    let counts = tally(alloc, parts)?;
    // By its contract, the keys are in order.
    let _ = counts.len();
    let mut children = children_of(alloc, counts)?;
    children.sort()?;
    Ok(children)
}

/// Returns the value of a path whose children's counts have this sum.
fn value_for(flags: DimFlags, docs: &[Document], path: &Path, sum: usize) -> i64
    requires sum { sum < 2 ^ 32 }
    requires docs { length docs.now < 2 ^ 24 }
    ensures { result ≡ (if not flags.multi_valued then pos sum
        else (if flags.require_dim_count then pos (count docs.now path.now) else negsuc 0)) }
{
    if !flags.multi_valued {
        sum as i64
    } else if flags.require_dim_count {
        docs.iter().filter(|doc| doc.has(path)).count() as i64
    } else {
        -1
    }
}

/// Returns the `n` children of a path that the most documents have, as the definition says. `dim_flags` are those of
/// the path's dimension. It returns `None` if no document has a label below the path.
///
/// It visits all labels of all documents, and allocates memory for each child and for each pair of a document and a
/// child of it. Errors: out of memory.
pub fn plain_top(
    alloc: Global,
    dim_flags: DimFlags,
    docs: &[Document],
    path: &Path,
    n: u32,
) -> Result<Option<FacetResult>, NoMemory>
    requires { length docs.now < 2 ^ 24 }
    ensures { IfOk result (λ o. (config : Config) → flags config (dim_of path.now) ≡ dim_flags
        → IsTop config docs.now path.now n (option_map result_view o)) }
{
    let parts = parts_below(alloc, docs, path)?;
    let sum = parts.len();
    let mut children = listing(alloc, parts)?;
    if children.is_empty() {
        return Ok(None);
    }
    let child_count = children.len() as u32;
    children.truncate(n as usize);
    let path = path.dup(alloc)?;
    let value = value_for(dim_flags, docs, &path, sum);
    Ok(Some(FacetResult {
        path,
        value,
        children,
        child_count,
    }))
}
