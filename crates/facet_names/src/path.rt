ghost use Rattle.std.specs.Prelude.{◌≡◌, ◌≢◌, ◌<◌, ◌≤◌, ◌++◌, [], ◌∷◌, Some, None, length, slice_get, IfOk, IfErr};
ghost use Rattle.std.specs.Prelude.{IsOk, take, drop, List, ℕ, MatchOption, string_bytes};
ghost use Rattle.facet_names.specs.Paths.{texts, is_under, parent_of};
ghost use Rattle.facet_names.specs.Faults.{IsPath, path_fault, part_fault};
ghost use Rattle.facet_names.specs.Terms.{term_text, IsTermText};
ghost use Rattle.facet_names.specs.Texts.{texts_in};
ghost use Rattle.facet_names.specs.declared.fault.PathFault.TheVariants.{NoMemory as Memory};

use crate::block::{block_of, block_with, compared, cut, is_front, size, skip};
use crate::fault::{NoMemory, PathFault};
use crate::term::{joined, split};
use std::alloc::Global;
use std::cmp::Ordering;
use std::hash::{Hash, Hasher};
use std::marker::Model;

/// A category: 1 to 32 components, each of 1 to 1,024 bytes. The first is the dimension. It corresponds to Lucene's
/// `FacetLabel`. The root, which has no component, is not a `Path`.
///
/// Paths are equal if their components are. They are ordered component by component, by bytes.
///
/// Memory: one allocation, of the bytes of the components and two for each.
#[derive(Debug, Drop)]
pub struct Path {
    text: String,
}

impl Model for Path {
    ghost use Rattle.std.specs.Prelude.{List, ℕ, string_bytes};
    ghost use Rattle.facet_names.specs.Blocks.{IsPathBlock, parts_of};

    ghost Value = { List (List ℕ) };

    ghost view = { λ p. parts_of (string_bytes p.text) };

    ghost invariant = { λ p. IsPathBlock (string_bytes p.text) };
}

fn check_part(at: usize, part: &str) -> Result<(), PathFault>
    ensures ok { IsOk result → part_fault at (part.now ∷ []) ≡ None }
    ensures err { IfErr result (λ e. part_fault at (part.now ∷ []) ≡ Some e) }
    ensures known { IfErr result (λ e. e ≢ Memory) }
{
    if part.is_empty() {
        return Err(PathFault::EmptyPart { at: at as u64 });
    }
    if part.len() > 1024 {
        return Err(PathFault::PartTooLong {
            at: at as u64,
            len: part.len() as u64,
        });
    }
    Ok(())
}

fn check_each(parts: &[String]) -> Result<(), PathFault>
    ensures ok { IsOk result → part_fault 0 (texts parts.now) ≡ None }
    ensures err { IfErr result (λ e. part_fault 0 (texts parts.now) ≡ Some e) }
    ensures known { IfErr result (λ e. e ≢ Memory) }
{
    for (at, part) in parts.iter().enumerate() {
        check_part(at, part.as_str())?;
    }
    Ok(())
}

fn check(parts: &[String]) -> Result<(), PathFault>
    ensures ok { IsOk result → path_fault (texts parts.now) ≡ None }
    ensures err { IfErr result (λ e. path_fault (texts parts.now) ≡ Some e) }
    ensures known { IfErr result (λ e. e ≢ Memory) }
{
    if parts.is_empty() {
        return Err(PathFault::NoPart);
    }
    if parts.len() > 32 {
        return Err(PathFault::TooManyParts {
            len: parts.len() as u64,
        });
    }
    check_each(parts)
}

impl Path {
    #[tactic(auto, using(crate::proofs::Blocks::path_block))]
    /// Makes the path of these components. It checks the number of components first, and then each of them in order.
    ///
    /// Errors: the first fault; out of memory.
    pub fn new(alloc: Global, parts: &[String]) -> Result<Path, PathFault>
        ensures ok { IfOk result (λ p. p ≡ texts parts.now) }
        ensures fits { IsOk result → path_fault (texts parts.now) ≡ None }
        ensures err { IfErr result (λ e. e ≢ Memory → path_fault (texts parts.now) ≡ Some e) }
        ensures memory { IfErr result (λ e. e ≡ Memory → path_fault (texts parts.now) ≡ None) }
    {
        check(parts)?;
        let text = block_of(alloc, parts)?;
        Ok(Path { text })
    }

    /// Makes the path of borrowed components, as Lucene's `FacetLabel(String...)`. It copies them before it checks
    /// them.
    ///
    /// Errors: out of memory, whatever the components are; otherwise those of [`new`](Path::new).
    pub fn of(alloc: Global, parts: &[&str]) -> Result<Path, PathFault>
        ensures ok { IfOk result (λ p. p ≡ texts_in parts.now) }
        ensures fits { IsOk result → path_fault (texts_in parts.now) ≡ None }
        ensures err { IfErr result (λ e. e ≢ Memory → path_fault (texts_in parts.now) ≡ Some e) }
    {
        let mut texts = Vec::new(alloc);
        for part in parts {
            texts.push(String::from_str(alloc, *part)?)?;
        }
        Path::new(alloc, &texts)
    }

    /// Makes the path of components that are known to be valid, as [`of`](Path::of) does. Errors: out of memory.
    pub fn of_valid(alloc: Global, parts: &[&str]) -> Result<Path, NoMemory>
        requires { IsPath (texts_in parts.now) }
        ensures { IfOk result (λ p. p ≡ texts_in parts.now) }
    {
        match Path::of(alloc, parts) {
            Ok(path) => Ok(path),
            Err(PathFault::NoMemory) => Err(NoMemory),
            Err(_) => unreachable!(),
        }
    }

    #[tactic(auto, using(crate::proofs::Blocks::path_block))]
    /// Makes the path of one component, a dimension. It checks the component before it copies it. Errors: those of
    /// [`new`](Path::new).
    pub fn of_dim(alloc: Global, dim: &str) -> Result<Path, PathFault>
        ensures ok { IfOk result (λ p. p ≡ dim.now ∷ []) }
        ensures fits { IsOk result → path_fault (dim.now ∷ []) ≡ None }
        ensures err { IfErr result (λ e. e ≢ Memory → path_fault (dim.now ∷ []) ≡ Some e) }
        ensures memory { IfErr result (λ e. e ≡ Memory → path_fault (dim.now ∷ []) ≡ None) }
    {
        check_part(0, dim)?;
        let text = block_with(alloc, "", dim)?;
        Ok(Path { text })
    }

    /// Returns the number of components, 1 to 32. It visits each of them.
    pub fn len(&self) -> usize
        ensures len { result ≡ length self.now }
        ensures fits { IsPath self.now }
    {
        size(&self.text)
    }

    /// States that a path has 1 to 32 components, so it is never the root of a label list. The call does nothing.
    pub fn has_components(&self)
        ensures { IsPath self.now }
    {
        let _ = &self.text;
    }

    /// Returns the component at a place, from 0. It has 1 to 1,024 bytes. It visits the components before it, and
    /// allocates nothing.
    pub fn part(&self, at: usize) -> &str
        requires { at < length self.now }
        ensures part { slice_get self.now at ≡ Some result.now }
        ensures some { 0 < length result.now }
        ensures short { length result.now ≤ 1024 }
    {
        cut(skip(&self.text, at)).0
    }

    /// Returns the first component, the dimension, in constant time.
    pub fn dim(&self) -> &str
        ensures { slice_get self.now 0 ≡ Some result.now }
    {
        cut(&self.text).0
    }

    /// Returns the path of the first `len` components, at least 1. Errors: out of memory.
    pub fn front(&self, alloc: Global, len: usize) -> Result<Path, NoMemory>
        requires some { 0 < len }
        requires within { len ≤ length self.now }
        ensures { IfOk result (λ p. p ≡ take len self.now) }
    {
        let rest = skip(&self.text, len);
        let (front, _) = self.text.split_at(self.text.len() - rest.len());
        let text = String::from_str(alloc, front)?;
        Ok(Path { text })
    }

    /// Returns the path without its last component, or `None` if it has only one: the root is not a `Path`. Errors: out
    /// of memory.
    pub fn parent(&self, alloc: Global) -> Result<Option<Path>, NoMemory>
        ensures { IfOk result (λ o. o ≡ parent_of self.now) }
    {
        let last = self.len() - 1;
        if last == 0 {
            return Ok(None);
        }
        let parent = self.front(alloc, last)?;
        Ok(Some(parent))
    }

    #[tactic(auto, using(crate::proofs::Parts::child_fault))]
    // Checks that the path with one more component is a path.
    fn check_child(&self, part: &str) -> Result<(), PathFault>
        ensures ok { IsOk result → path_fault (self.now ++ part.now ∷ []) ≡ None }
        ensures err { IfErr result (λ e. path_fault (self.now ++ part.now ∷ []) ≡ Some e) }
        ensures known { IfErr result (λ e. e ≢ Memory) }
    {
        let at = self.len();
        if at == 32 {
            return Err(PathFault::TooManyParts { len: 33 });
        }
        check_part(at, part)
    }

    /// Returns the path with one more component. It checks the component before it copies anything. Errors: those of
    /// [`new`](Path::new) for the longer list.
    pub fn child(&self, alloc: Global, part: &str) -> Result<Path, PathFault>
        ensures ok { IfOk result (λ p. p ≡ self.now ++ part.now ∷ []) }
        ensures fits { IsOk result → path_fault (self.now ++ part.now ∷ []) ≡ None }
        ensures err { IfErr result (λ e. e ≢ Memory → path_fault (self.now ++ part.now ∷ []) ≡ Some e) }
        ensures memory { IfErr result (λ e. e ≡ Memory → path_fault (self.now ++ part.now ∷ []) ≡ None) }
    {
        self.check_child(part)?;
        let text = block_with(alloc, &self.text, part)?;
        Ok(Path { text })
    }

    /// Returns whether the other path is a prefix of this one. Each path is a prefix of itself. It allocates nothing.
    pub fn is_under(&self, other: &Path) -> bool
        ensures { result ≡ is_under self.now other.now }
    {
        is_front(&other.text, &self.text)
    }

    /// Returns the drill-down term of the path, as Lucene's `FacetsConfig.pathToString`: the components with U+001F
    /// between them, and U+001E before each U+001E and U+001F inside one. It has at most 65,567 bytes.
    ///
    /// Errors: out of memory.
    pub fn term_text(&self, alloc: Global) -> Result<String, NoMemory>
        ensures text { IfOk result (λ text. string_bytes text ≡ term_text self.now) }
        ensures some { 0 < length self.now }
    {
        joined(alloc, &self.text)
    }

    /// Returns the path whose term text this is, or `None` if it is that of no path. It takes time proportional to the
    /// length of the text, and allocates memory for the components.
    ///
    /// Errors: out of memory.
    pub fn from_term_text(alloc: Global, text: &str) -> Result<Option<Path>, NoMemory>
        ensures { IfOk result
            (λ o. MatchOption o ((path : List (List ℕ))
            → ¬ IsTermText text.now path) (λ path. IsTermText text.now path)) }
    {
        let Some(parts) = split(alloc, text)? else {
            return Ok(None);
        };
        match check(&parts) {
            Ok(()) => {
                let text = block_of(alloc, &parts)?;
                Ok(Some(Path { text }))
            }
            Err(_) => Ok(None),
        }
    }

    /// Copies the path. Errors: out of memory.
    pub fn dup(&self, alloc: Global) -> Result<Path, NoMemory>
        ensures { IfOk result (λ p. p ≡ self.now) }
    {
        let text = String::from_str(alloc, &self.text)?;
        Ok(Path { text })
    }
}

impl PartialEq for Path {
    ghost use Rattle.facet_names.specs.Paths.{path_eq, path_eq_equiv};
    ghost use Rattle.std.specs.Cmp.{partial_equiv_from_equiv};

    ghost eq = { path_eq };

    ghost laws = { partial_equiv_from_equiv path_eq_equiv };

    fn eq(&self, other: &Path) -> bool {
        self.text == other.text
    }
}

impl Eq for Path {
    ghost use Rattle.facet_names.specs.Paths.{path_eq_equiv};

    ghost laws = { path_eq_equiv };
}

impl PartialOrd for Path {
    ghost use Rattle.facet_names.specs.Paths.{path_cmp, path_order};

    ghost partial_cmp = { λ x y. Some (path_cmp x y) };

    ghost laws = { path_order };

    fn partial_cmp(&self, other: &Path) -> Option<Ordering> {
        Some(self.cmp(other))
    }
}

impl Ord for Path {
    ghost use Rattle.std.specs.Prelude.{refl};
    ghost use Rattle.facet_names.specs.Paths.{path_cmp, path_cmp_total, path_ties};

    ghost cmp = { path_cmp };

    ghost total = { path_cmp_total };

    ghost matches_partial_cmp = { λ x y. refl };

    ghost matches_eq = { path_ties };

    fn cmp(&self, other: &Path) -> Ordering {
        compared(&self.text, &other.text)
    }
}

impl Hash for Path {
    ghost use Rattle.facet_names.specs.Paths.{path_hash, path_hash_alike};

    ghost hash_input = { path_hash };

    ghost respects_eq = { path_hash_alike.fed };

    fn hash<H: Hasher>(&self, state: &mut H) {
        self.text.hash(state);
    }
}
