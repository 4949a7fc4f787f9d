ghost use Rattle.std.specs.Prelude.{◌≡◌, ◌≢◌, ◌≤◌, ◌<◌, ◌+◌, ◌-◌, [], ◌∷◌, Some, Err, false, length, is_some};
ghost use Rattle.std.specs.Prelude.{slice_get, IsTrue, IsOk, IfOk, IfErr, OnOk, OnErr};
ghost use mathlib.Core.List.{IsPrefix};
ghost use Rattle.facet_names.specs.Labels.{GoesOn, IsLabelList, above, place, stands, with_label};

use crate::fault::TaxoFault;
use crate::labelled::Labelled;
use crate::view::TaxoView;
use facet_names::{NoMemory, Path};
use indexmap::IndexSet;
use label_pieces::Steps;
use std::alloc::Global;
use std::hash::RandomState;
use std::marker::{Brand, Model};
use std::sync::ledger::{Blank, Ledger};

/// The list of labels, as Lucene's `DirectoryTaxonomyWriter` keeps it. A label's ordinal is its place in the list. The
/// root has ordinal 0, every other label comes after its parent, and no label occurs twice.
#[derive(Drop)]
pub struct Taxonomy {
    alloc: Global,
    // without the root, so that an ordinal is one more than a label's index
    labels: IndexSet<Path, RandomState>,
    // with the root
    parents: Vec<i32>,
}

impl Model for Taxonomy {
    ghost use Rattle.std.specs.Prelude.{ℕ, List, [], ◌∷◌};
    ghost use Rattle.taxo_list.specs.Kept.{IsTaxonomy};

    ghost Value = { List (List (List ℕ)) };

    ghost view = { λ t. [] ∷ t.labels.keys };

    ghost invariant = { λ t. IsTaxonomy t.labels.keys t.parents.items };
}

impl Labelled for Taxonomy {
    ghost labels = { λ t. t };

    fn size(&self) -> u32 {
        self.labels.len() as u32 + 1
    }

    fn path_of(&self, ord: u32) -> &Path {
        &self.labels.as_slice()[ord as usize - 1]
    }
}

impl Taxonomy {
    ghost use Rattle.taxo_list.specs.declared.fault.TaxoFault.TheVariants.{LabelsFull, NoMemory as Memory};

    /// Returns a list of only the root. `keys` are the hash keys of labels; no result depends on them. Errors: out of
    /// memory.
    pub fn new(alloc: Global, keys: RandomState) -> Result<Taxonomy, NoMemory>
        ensures { IfOk result (λ t. t ≡ [] ∷ []) }
    {
        let mut parents = Vec::new(alloc);
        parents.push(-1)?;
        let labels = IndexSet::with_hasher(alloc, keys);
        Ok(Taxonomy {
            alloc,
            labels,
            parents,
        })
    }

    /// Returns the paths after the root. The ordinal of a path is one more than its place among them. It allocates
    /// nothing.
    pub fn paths(&self) -> &[Path]
        ensures paths { self.now ≡ [] ∷ result.now }
        ensures list { IsLabelList self.now }
        ensures few { length self.now ≤ 1000000 }
    {
        self.labels.as_slice()
    }

    /// Returns the ordinal of a path, or `None` if the list does not have it. It takes one look-up in a hash table, and
    /// allocates nothing.
    pub fn find(&self, path: &Path) -> Option<u32>
        ensures ordinal { result ≡ place self.now path.now }
        ensures there { is_some result ≡ stands self.now path.now }
    {
        path.has_components();
        match self.labels.get_index_of(path) {
            Some(index) => Some(index as u32 + 1),
            None => None,
        }
    }

    // Returns the ordinal of the parent of a path.
    fn parent_of(&self, path: &Path) -> Result<u32, NoMemory>
        requires { IsTrue (stands self.now (above path.now)) }
        ensures { IfOk result (λ ord. place self.now (above path.now) ≡ Some ord) }
    {
        match path.parent(self.alloc)? {
            Some(parent) => Ok(self.find(&parent).unwrap()),
            None => Ok(0),
        }
    }

    // Adds a new label at the end, under the parent at an ordinal.
    fn put_last(&mut self, label: Path, parent: u32) -> Result<u32, TaxoFault>
        requires new { stands self.old label ≡ false }
        requires room { length self.old < 1000000 }
        requires parent { place self.old (above label) ≡ Some parent }
        ensures added { OnOk result (self.new ≡ with_label self.old label) }
        ensures ordinal { IfOk result (λ ord. place self.new label ≡ Some ord) }
        ensures stands { OnOk result (IsTrue (stands self.new label)) }
        ensures list { IsLabelList self.new }
        ensures goes_on { GoesOn self.old self.new }
        ensures memory { IfErr result (λ e. e ≡ Memory) }
        ensures unchanged { OnErr result (self.new ≡ self.old) }
    {
        let ord = self.size();
        self.parents.reserve(1)?;
        self.labels.insert(label)?;
        self.parents.push(parent as i32)?;
        Ok(ord)
    }

    /// Returns the ordinal of a path, and adds the path at the end if it is missing. The list has its parent, or the
    /// path has one component.
    ///
    /// It allocates only for a new path. Errors: `LabelsFull` if the path is missing and the list has `limit` entries
    /// or more; out of memory. Then the list is as before.
    pub fn add(&mut self, path: &Path, limit: u32) -> Result<u32, TaxoFault>
        requires limit { limit ≤ 1000000 }
        requires parent { IsTrue (stands self.old (above path.now)) }
        ensures added { OnOk result (self.new ≡ with_label self.old path.now) }
        ensures ordinal { IfOk result (λ ord. place self.new path.now ≡ Some ord) }
        ensures stands { OnOk result (IsTrue (stands self.new path.now)) }
        ensures list { IsLabelList self.new }
        ensures goes_on { GoesOn self.old self.new }
        ensures there { IsTrue (stands self.old path.now) → IsOk result }
        ensures full { stands self.old path.now ≡ false → limit ≤ length self.old
            → result ≡ Err (LabelsFull (length self.old)) }
        ensures refused { IfErr result (λ e. e ≢ Memory → (stands self.old path.now ≡ false)
            × (limit ≤ length self.old)) }
        ensures unchanged { OnErr result (self.new ≡ self.old) }
    {
        if let Some(ord) = self.find(path) {
            return Ok(ord);
        }
        let ord = self.size();
        if ord >= limit {
            return Err(TaxoFault::LabelsFull { size: ord as u64 });
        }
        let parent = self.parent_of(path)?;
        let label = path.dup(self.alloc)?;
        self.put_last(label, parent)
    }

    /// Adds a path as [`add`](Taxonomy::add) does, given the ordinal of its parent. It takes the path without copying
    /// it, and does not look the parent up.
    pub fn add_under(&mut self, path: Path, parent: u32, limit: u32) -> Result<u32, TaxoFault>
        requires limit { limit ≤ 1000000 }
        requires parent { place self.old (above path) ≡ Some parent }
        ensures added { OnOk result (self.new ≡ with_label self.old path) }
        ensures ordinal { IfOk result (λ ord. place self.new path ≡ Some ord) }
        ensures stands { OnOk result (IsTrue (stands self.new path)) }
        ensures list { IsLabelList self.new }
        ensures goes_on { GoesOn self.old self.new }
        ensures there { IsTrue (stands self.old path) → IsOk result }
        ensures full { stands self.old path ≡ false → limit ≤ length self.old
            → result ≡ Err (LabelsFull (length self.old)) }
        ensures refused { IfErr result (λ e. e ≢ Memory → (stands self.old path ≡ false) × (limit ≤ length self.old)) }
        ensures unchanged { OnErr result (self.new ≡ self.old) }
    {
        let size = self.size();
        match self.find(&path) {
            Some(ord) => Ok(ord),
            None => if size >= limit {
                Err(TaxoFault::LabelsFull { size: size as u64 })
            } else {
                self.put_last(path, parent)
            },
        }
    }

    /// Returns a view of the list. It copies every label, so it takes time and memory proportional to the whole list.
    /// Given a view of the first labels, [`view_after`](Taxonomy::view_after) copies less. Errors: out of memory.
    pub fn view(&self) -> Result<TaxoView, NoMemory>
        ensures { IfOk result (λ v. v ≡ self.now) }
    {
        let root = TaxoView::of_root(self.alloc, *self.labels.hasher())?;
        self.view_after(&root)
    }

    /// Returns a view of the list, given a view of its first labels, as [`view_from`](Taxonomy::view_from) does. It
    /// counts no steps. Errors: out of memory.
    pub fn view_after(&self, last: &TaxoView) -> Result<TaxoView, NoMemory>
        requires last { IsPrefix last.now self.now }
        ensures { IfOk result (λ v. v ≡ self.now) }
    {
        self.uncounted::<Brand>(last, Blank::new(1))
    }

    // Does the same as `view_from`, with a counter of its own.
    fn uncounted<L: Ledger>(&self, last: &TaxoView, blank: Blank) -> Result<TaxoView, NoMemory>
        requires last { IsPrefix last.now self.now }
        requires name { blank.name ≡ L.name }
        requires parts { blank.parts ≡ L.parts }
        requires some { 0 < blank.parts }
        ensures { IfOk result (λ v. v ≡ self.now) }
    {
        let mut steps = Steps::<L>::new(blank);
        self.view_from(last, &mut steps)
    }

    /// Returns a view of the list, given a view of its first labels. The two share everything except what is new. It
    /// copies each new label, and at most 4,095 others: on average 8 per new label if labels are added one by one. Each
    /// copy of a label counts as a step.
    ///
    /// Errors: out of memory.
    pub fn view_from<L: Ledger>(
        &self,
        last: &TaxoView,
        steps: &mut Steps<L>,
    ) -> Result<TaxoView, NoMemory>
        requires last { IsPrefix last.now self.now }
        ensures view { IfOk result (λ v. v ≡ self.now) }
        ensures steps { steps.new ≤ steps.old + (length self.now - length last.now) + 4095 }
    {
        last.grown(self.labels.as_slice(), &self.parents, steps)
    }
}
