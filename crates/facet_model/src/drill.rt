ghost use Rattle.std.specs.Prelude.{◌≡◌, ◌<◌, ◌≤◌, List, ℕ, Some, IfOk, length, map, slice_get, string_bytes};
ghost use Rattle.facet_model.specs.Terms.{path_term};

use crate::document::dup_paths;
use facet_names::{NoMemory, Path};
use std::alloc::Global;
use std::marker::Model;

/// The paths that a search is drilled down to, as Lucene's `DrillDownQuery`: at most 256. Paths of one dimension are
/// alternatives, and each dimension is required. The drill-down term of each path is stored with it.
#[derive(Debug, Drop)]
pub struct Drill {
    paths: Vec<Path>,
    terms: Vec<String>,
}

impl Model for Drill {
    ghost use Rattle.std.specs.Prelude.{List, ℕ, string_bytes};
    ghost use Rattle.facet_model.specs.Terms.{IsDrill};

    ghost Value = { List (List (List ℕ)) };

    ghost view = { λ d. d.paths.items };

    ghost invariant = { λ d. IsDrill d.paths.items d.terms.items };
}

/// Returns the drill-down term of a path: an `f` and the path's term text. Errors: out of memory.
pub fn path_term(alloc: Global, path: &Path) -> Result<String, NoMemory>
    ensures term { IfOk result (λ t. string_bytes t ≡ path_term path.now) }
    ensures some { 0 < length path.now }
{
    let text = path.term_text(alloc)?;
    let mut term = String::from_str(alloc, "f")?;
    term.push_str(text.as_str())?;
    Ok(term)
}

// Returns the terms of paths.
fn terms_of(alloc: Global, paths: &[Path]) -> Result<Vec<String>, NoMemory>
    ensures { IfOk result (λ v. map string_bytes v.items ≡ map path_term paths.now) }
{
    let mut terms = Vec::with_capacity(alloc, paths.len())?;
    for path in paths {
        terms.push(path_term(alloc, path)?)?;
    }
    Ok(terms)
}

impl Drill {
    /// Makes a drill of paths, in their order. It takes the paths, and allocates memory for their terms. Errors: out of
    /// memory.
    pub fn new(alloc: Global, paths: Vec<Path>) -> Result<Drill, NoMemory>
        requires { length paths.items ≤ 256 }
        ensures { IfOk result (λ d. d ≡ paths.items) }
    {
        let terms = terms_of(alloc, &paths)?;
        Ok(Drill { paths, terms })
    }

    /// Returns the paths in the order given.
    pub fn paths(&self) -> &[Path]
        ensures paths { result.now ≡ self.now }
        ensures few { length result.now ≤ 256 }
    {
        &self.paths
    }

    /// Returns the drill-down term of the path at a place, from 0.
    pub fn term(&self, at: usize) -> &str
        requires { at < length self.now }
        ensures { (path : List (List ℕ)) → slice_get self.now at ≡ Some path → result.now ≡ path_term path }
    {
        self.terms[at].as_str()
    }

    /// Copies the drill. Errors: out of memory.
    pub fn dup(&self, alloc: Global) -> Result<Drill, NoMemory>
        ensures { IfOk result (λ d. d ≡ self.now) }
    {
        let paths = dup_paths(alloc, &self.paths)?;
        Drill::new(alloc, paths)
    }
}
