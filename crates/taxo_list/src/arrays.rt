ghost use Rattle.std.specs.Prelude.{◌≡◌, ◌<◌, ◌≤◌, ◌*◌, ◌++◌, ◌∷◌, ℕ, [], negsuc, length, take, drop as skip};
ghost use Rattle.std.specs.Prelude.{slice_index_or};
ghost use Rattle.std.specs.Prelude.{IfOk, OnOk, OnErr};
ghost use Rattle.taxo_list.specs.ArrayLists.{arrays_of, AreOfPrefix};
ghost use Rattle.taxo_list.specs.Links.{arrays_by, AreParents};

use crate::view::TaxoView;
use facet_names::NoMemory;
use shared_list::Shared;
use std::alloc::Global;
use std::marker::Model;

/// The parents, children and siblings of labels by ordinal, as Lucene's `ParallelTaxonomyArrays`: three arrays of
/// `i32`, 12 bytes per label.
///
/// The child of a label is the child that was added last. The sibling of a label is the child of the same parent that
/// was added last before it. So the children of a label are its child, that one's sibling and so on, until -1.
///
/// Arrays that grow from others share with them all that did not change.
#[derive(Debug, Drop)]
pub struct Arrays {
    parents: Shared<i32>,
    children: Shared<i32>,
    siblings: Shared<i32>,
}

impl Model for Arrays {
    ghost use Rattle.std.specs.Prelude.{◌≤◌, length};
    ghost use Rattle.taxo_list.specs.ArrayLists.{ArrayLists};

    ghost Value = { ArrayLists };

    ghost view = { λ a. record { parents = a.parents; children = a.children; siblings = a.siblings } };

    ghost invariant = { λ a. (length a.parents ≤ length a.children) × (length a.parents ≤ length a.siblings) };
}

impl Arrays {
    // Returns the arrays of no label.
    pub(crate) fn new(alloc: Global) -> Arrays
        ensures { result ≡ arrays_by [] }
    {
        Arrays {
            parents: Shared::new(alloc),
            children: Shared::new(alloc),
            siblings: Shared::new(alloc),
        }
    }

    // Returns the same arrays, which share their pieces with these.
    fn share(&self) -> Result<Arrays, NoMemory>
        ensures { IfOk result (λ a. a ≡ self.now) }
    {
        Ok(Arrays {
            parents: self.parents.share()?,
            children: self.children.share()?,
            siblings: self.siblings.share()?,
        })
    }

    // Adds one more label, given its parent. It becomes the child of the parent, and the parent's last child becomes
    // its sibling. No other entry changes.
    fn enter(&mut self, parent: i32) -> Result<(), NoMemory>
        requires few { length self.old.parents < 1000000 }
        requires parent { AreParents (self.old.parents ++ parent ∷ []) }
        requires linked { self.old ≡ arrays_by self.old.parents }
        ensures { OnOk result (self.new ≡ arrays_by (self.old.parents ++ parent ∷ [])) }
    {
        let ord = self.parents.len() as i32;
        self.children.push(-1)?;
        if parent < 0 {
            self.siblings.push(-1)?;
        } else {
            self.siblings.push(self.children.get(parent as usize))?;
            self.children.set(parent as usize, ord)?;
        }
        self.parents.push(parent)?;
        Ok(())
    }

    // Returns the arrays of all these parents. The first of them are in these arrays already. Pieces in which nothing
    // changes are shared.
    pub(crate) fn grown(&self, parents: &[i32]) -> Result<Arrays, NoMemory>
        requires few { length parents.now ≤ 1000000 }
        requires parents { AreParents parents.now }
        requires prefix { (n : ℕ) × (n ≤ length parents.now) × (self.now ≡ arrays_by (take n parents.now)) }
        ensures { IfOk result (λ a. a ≡ arrays_by parents.now) }
    {
        let mut grown = self.share()?;
        for ord in self.parents.len()..parents.len() {
            grown.enter(parents[ord])?;
        }
        Ok(grown)
    }

    // Does the same as `grown`, for parents in a shared list.
    fn grown_to(&self, parents: &Shared<i32>) -> Result<Arrays, NoMemory>
        requires few { length parents.now ≤ 1000000 }
        requires parents { AreParents parents.now }
        requires prefix { (n : ℕ) × (n ≤ length parents.now) × (self.now ≡ arrays_by (take n parents.now)) }
        ensures { IfOk result (λ a. a ≡ arrays_by parents.now) }
    {
        let mut grown = self.share()?;
        for ord in self.parents.len()..parents.len() {
            grown.enter(parents.get(ord))?;
        }
        Ok(grown)
    }

    // Returns the parents of all labels.
    pub(crate) fn parents(&self) -> &Shared<i32>
        ensures { result.now ≡ self.now.parents }
    {
        &self.parents
    }

    /// Makes the arrays of a view, in one pass over its labels. Errors: out of memory.
    pub fn from_scratch(alloc: Global, view: &TaxoView) -> Result<Arrays, NoMemory>
        ensures { IfOk result (λ a. a ≡ arrays_of view.now) }
    {
        Arrays::new(alloc).grown_to(view.parents())
    }

    /// Extends the arrays of the first labels of a view to all its labels. It visits only the new labels. Errors: out
    /// of memory.
    pub fn extend(&mut self, view: &TaxoView) -> Result<(), NoMemory>
        requires { AreOfPrefix self.old view.now }
        ensures ok { OnOk result (self.new ≡ arrays_of view.now) }
        ensures err { OnErr result (self.new ≡ self.old) }
    {
        *self = self.grown_to(view.parents())?;
        Ok(())
    }

    /// Returns the ordinal of the parent, or -1 for the root, in constant time.
    pub fn parent(&self, ord: u32) -> i32
        requires { ord < length self.now.parents }
        ensures { result ≡ slice_index_or self.now.parents ord (negsuc 0) }
    {
        self.parents.get(ord as usize)
    }

    /// Returns the parents of the labels from ordinal `piece * 1024` on, at most 1,024, as a slice. It is empty after
    /// the last label.
    ///
    /// A walk over all labels reads these slices faster than one parent after the other.
    pub fn parents_in(&self, piece: usize) -> &[i32]
        ensures { result.now ≡ take 1024 (skip (piece * 1024) self.now.parents) }
    {
        self.parents.piece(piece)
    }

    /// Returns the ordinal of the child that was added last, or -1, in constant time.
    pub fn child(&self, ord: u32) -> i32
        requires { ord < length self.now.parents }
        ensures { result ≡ slice_index_or self.now.children ord (negsuc 0) }
    {
        self.children.get(ord as usize)
    }

    /// Returns the ordinal of the child of the same parent that was added last before this one, or -1, in constant
    /// time.
    pub fn sibling(&self, ord: u32) -> i32
        requires { ord < length self.now.parents }
        ensures { result ≡ slice_index_or self.now.siblings ord (negsuc 0) }
    {
        self.siblings.get(ord as usize)
    }
}
