ghost use Rattle.std.specs.Prelude.{◌≡◌, ◌<◌, ◌≤◌, ◌*◌, ◌++◌, ℕ, List, [], ◌∷◌, length, take, drop as skip};
ghost use Rattle.std.specs.Prelude.{slice_index_or, unwrap_or, IfOk, OnOk, OnErr};
ghost use Rattle.std.specs.Arc.{arc_value};
ghost use Rattle.facet_names.specs.Labels.{IsLabelList};
ghost use Rattle.taxo_list.specs.ArrayLists.{arrays_of};
ghost use Rattle.taxo_list.specs.DimLists.{AreDimLists};
ghost use Rattle.taxo_list.specs.Links.{parent_in, AreParents, noted};

use facet_names::NoMemory;
use shared_list::Shared;
use std::alloc::Global;
use std::marker::Model;
use std::sync::Arc;

/// The dimensions of labels by ordinal: 4 bytes per label, and 4 per dimension.
///
/// Dimensions that grow from others share with them everything that did not change. The list of the dimensions is
/// copied when there is a new dimension.
#[derive(Drop)]
pub struct Dims {
    alloc: Global,
    // the ordinals of the labels of one component, rising
    dims: Arc<Vec<u32>>,
    // for each label the place of its dimension among them, and 0 for the root
    numbers: Shared<u32>,
}

impl Model for Dims {
    ghost use Rattle.std.specs.Prelude.{◌<◌, length};
    ghost use Rattle.std.specs.Arc.{arc_value};
    ghost use Rattle.taxo_list.specs.DimLists.{DimLists};

    ghost Value = { DimLists };

    ghost view = { λ d. record { dims = (arc_value d.dims).items; numbers = d.numbers } };

    ghost invariant = { λ d. length (arc_value d.dims).items < length d.numbers };
}

// Returns the parent at an ordinal, or the root if there is none.
fn parent_or_root(parents: &[i32], ord: usize) -> u32
    requires { ord < length parents.now }
    ensures { result ≡ unwrap_or (parent_in parents.now ord) 0 }
{
    let parent = parents[ord];
    if parent < 0 { 0 } else { parent as u32 }
}

// Appends a dimension: in place if the list has no other owner, and otherwise to a copy.
fn append(alloc: Global, dims: &mut Arc<Vec<u32>>, ord: u32) -> Result<(), NoMemory>
    requires few { length (arc_value dims.old).items < 1000000 }
    ensures ok { OnOk result ((arc_value dims.new).items ≡ (arc_value dims.old).items ++ ord ∷ []) }
    ensures err { OnErr result ((arc_value dims.new).items ≡ (arc_value dims.old).items) }
{
    if let Some(own) = Arc::get_mut(dims) {
        own.push(ord)?;
        return Ok(());
    }
    let mut longer = Vec::with_capacity(alloc, dims.len() + 1)?;
    longer.extend_from_slice(dims)?;
    longer.push(ord)?;
    *dims = Arc::new(alloc, longer)?;
    Ok(())
}

impl Dims {
    // Returns the dimensions of only the root, which has none.
    pub(crate) fn of_root(alloc: Global) -> Result<Dims, NoMemory>
        ensures { IfOk result (λ d. AreDimLists ([] ∷ []) 1 d) }
    {
        let mut numbers = Shared::new(alloc);
        numbers.push(0)?;
        Ok(Dims {
            alloc,
            dims: Arc::new(alloc, Vec::new(alloc))?,
            numbers,
        })
    }

    // Returns the same dimensions, which share their memory with these.
    fn share(&self) -> Result<Dims, NoMemory>
        ensures { IfOk result (λ d. d ≡ self.now) }
    {
        Ok(Dims {
            alloc: self.alloc,
            dims: Arc::try_clone(&self.dims)?,
            numbers: self.numbers.share()?,
        })
    }

    // Adds one more label, given its parent.
    fn note(&mut self, parent: u32) -> Result<(), NoMemory>
        requires few { length self.old.numbers < 1000000 }
        requires parent { parent < length self.old.numbers }
        ensures { OnOk result (self.new ≡ noted self.old parent) }
    {
        if parent == 0 {
            let ord = self.numbers.len() as u32;
            self.numbers.push(self.dims.len() as u32)?;
            append(self.alloc, &mut self.dims, ord)?;
        } else {
            self.numbers.push(self.numbers.get(parent as usize))?;
        }
        Ok(())
    }

    // Returns the dimensions of all labels with these parents. The first of them are in these dimensions already.
    pub(crate) fn grown(&self, parents: &[i32]) -> Result<Dims, NoMemory>
        requires few { length parents.now ≤ 1000000 }
        requires within { length self.now.numbers ≤ length parents.now }
        requires parents { AreParents parents.now }
        ensures { IfOk result (λ d. (labels : List (List (List ℕ))) (n : ℕ) → IsLabelList labels
            → parents.now ≡ (arrays_of labels).parents
            → n ≤ length labels → AreDimLists (take n labels) n self.now → AreDimLists labels (length labels) d) }
    {
        let mut grown = self.share()?;
        for ord in self.numbers.len()..parents.len() {
            grown.note(parent_or_root(parents, ord))?;
        }
        Ok(grown)
    }

    /// Returns the ordinals of the labels of one component, rising.
    pub fn ords(&self) -> &[u32]
        ensures { result.now ≡ self.now.dims }
    {
        &self.dims
    }

    /// Returns the place of a label's dimension among them, in constant time.
    pub fn number(&self, ord: u32) -> u32
        requires { ord < length self.now.numbers }
        ensures { result ≡ slice_index_or self.now.numbers ord 0 }
    {
        self.numbers.get(ord as usize)
    }

    /// Returns the places of the dimensions of the labels from ordinal `piece * 1024` on, at most 1,024, as a slice.
    pub fn numbers_in(&self, piece: usize) -> &[u32]
        ensures { result.now ≡ take 1024 (skip (piece * 1024) self.now.numbers) }
    {
        self.numbers.piece(piece)
    }
}
