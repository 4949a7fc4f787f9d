ghost use Rattle.std.specs.Prelude.{◌≡◌, ◌<◌, ◌≤◌, ◌+◌, ◌-◌, ◌*◌, ℕ, [], ◌∷◌, All, Some, length, take, drop as skip};
ghost use Rattle.std.specs.Prelude.{is_some, slice_get, slice_index_or, IfOk};
ghost use mathlib.Core.List.{IsPrefix};
ghost use Rattle.facet_names.specs.Labels.{IsLabelList, place, stands};
ghost use Rattle.taxo_list.specs.ArrayLists.{arrays_of};
ghost use Rattle.taxo_list.specs.DimLists.{dims_of, IsDimNumber};

use crate::arrays::Arrays;
use crate::dims::Dims;
use crate::labelled::Labelled;
use facet_names::{NoMemory, Path};
use label_pieces::{LabelPieces, Steps};
use shared_list::Shared;
use std::alloc::Global;
use std::hash::RandomState;
use std::marker::Model;
use std::sync::ledger::Ledger;

/// The list of labels as it was when the view was made, as Lucene's `TaxonomyReader`. It has the labels, their arrays,
/// and the number of each label's dimension. It shares them with the views that it was made from, and with those that
/// are made from it.
///
/// It never changes, so threads may share it. No call allocates.
#[derive(Drop)]
pub struct TaxoView {
    // without the root, so that an ordinal is one more than a label's index
    labels: LabelPieces,
    arrays: Arrays,
    dims: Dims,
}

impl Model for TaxoView {
    ghost use Rattle.std.specs.Prelude.{ℕ, List, [], ◌∷◌};
    ghost use Rattle.taxo_list.specs.Kept.{IsView};

    ghost Value = { List (List (List ℕ)) };

    ghost view = { λ v. [] ∷ v.labels };

    ghost invariant = { λ v. IsView v.labels v.arrays v.dims };
}

impl Labelled for TaxoView {
    ghost labels = { λ v. v };

    fn size(&self) -> u32 {
        self.labels.len() as u32 + 1
    }

    fn path_of(&self, ord: u32) -> &Path {
        self.labels.path_at(ord as usize - 1)
    }
}

impl TaxoView {
    // Returns the view of only the root.
    pub(crate) fn of_root(alloc: Global, keys: RandomState) -> Result<TaxoView, NoMemory>
        ensures { IfOk result (λ v. v ≡ [] ∷ []) }
    {
        Ok(TaxoView {
            labels: LabelPieces::new(alloc, keys),
            arrays: Arrays::new(alloc).grown(&[-1])?,
            dims: Dims::of_root(alloc)?,
        })
    }

    // Returns the view of all labels, given without the root. The first of them are those of this view. The parents are
    // those of all labels.
    pub(crate) fn grown<L: Ledger>(
        &self,
        paths: &[Path],
        parents: &[i32],
        steps: &mut Steps<L>,
    ) -> Result<TaxoView, NoMemory>
        requires prefix { IsPrefix self.now ([] ∷ paths.now) }
        requires list { IsLabelList ([] ∷ paths.now) }
        requires few { length paths.now < 1000000 }
        requires parents { parents.now ≡ (arrays_of ([] ∷ paths.now)).parents }
        ensures view { IfOk result (λ v. v ≡ [] ∷ paths.now) }
        ensures steps { steps.new ≤ steps.old + (length ([] ∷ paths.now) - length self.now) + 4095 }
    {
        Ok(TaxoView {
            labels: self.labels.grown(paths, steps)?,
            arrays: self.arrays.grown(parents)?,
            dims: self.dims.grown(parents)?,
        })
    }

    // Returns the parents of all labels.
    pub(crate) fn parents(&self) -> &Shared<i32>
        ensures parents { result.now ≡ (arrays_of self.now).parents }
        ensures list { IsLabelList self.now }
        ensures few { length self.now ≤ 1000000 }
    {
        self.arrays.parents()
    }

    /// Returns the ordinal of a path, or `None` if the view does not have it. It takes one look-up in a hash table for
    /// each 4,096 labels before it, and about 10 more among the newest labels.
    pub fn ordinal_of(&self, path: &Path) -> Option<u32>
        ensures ordinal { result ≡ place self.now path.now }
        ensures there { is_some result ≡ stands self.now path.now }
        ensures some { 0 < length path.now }
    {
        path.has_components();
        match self.labels.find(path) {
            Some(index) => Some(index as u32 + 1),
            None => None,
        }
    }

    /// Returns the parents, children and siblings of the labels.
    pub fn arrays(&self) -> &Arrays
        ensures arrays { result.now ≡ arrays_of self.now }
        ensures list { IsLabelList self.now }
    {
        &self.arrays
    }

    /// Returns the ordinals of the labels of one component, the dimensions, rising.
    pub fn dims(&self) -> &[u32]
        ensures dims { result.now ≡ dims_of self.now }
        ensures each { All (λ ord. (0 < ord) × (ord < length self.now)) result.now }
    {
        self.dims.ords()
    }

    /// Returns the place of a label's dimension among [`dims`](TaxoView::dims), in constant time.
    pub fn dim_number(&self, ord: u32) -> u32
        requires some { 0 < ord }
        requires within { ord < length self.now }
        ensures { IsDimNumber self.now (dims_of self.now) ord result }
    {
        self.dims.number(ord)
    }

    /// Returns what [`dim_number`](TaxoView::dim_number) is for the labels from ordinal `piece * 1024` on, at most
    /// 1,024, as a slice. It is empty after the last label. The number of the root means nothing.
    ///
    /// A walk over all labels reads these slices faster than one number after the other.
    pub fn dim_numbers_in(&self, piece: usize) -> &[u32]
        ensures len { length result.now ≡ length (take 1024 (skip (piece * 1024) self.now)) }
        ensures each { (n : ℕ) → n < length result.now → 0 < piece * 1024 + n
            → IsDimNumber self.now (dims_of self.now) (piece * 1024 + n) (slice_index_or result.now n 0) }
    {
        self.dims.numbers_in(piece)
    }
}
