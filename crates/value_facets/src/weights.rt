//! The numbers below the components of a dimension, by the ordinals of their labels.
ghost use Rattle.std.specs.Prelude.{◌≡◌, ◌<◌, ℕ, List, [], ◌∷◌, Some, true, length, replicate, slice_get, IfOk};
ghost use Rattle.facet_names.specs.Arrays.{is_child};
ghost use Rattle.facet_names.specs.Labels.{IsLabelList};
ghost use Rattle.value_facets.specs.Summing.{IsWeight, AreNotedBelow, AreWeights, no_weight};

use facet_counts::{child_of, sibling_of};
use facet_names::NoMemory;
use number_facets::read_small_number;
use std::alloc::Global;
use taxo_list::{Labelled, TaxoView};

/// What a label adds to a component: the component's ordinal, and the number. The ordinal is 0, which is the root's, if
/// the label adds nothing.
#[derive(Clone, Copy, Drop)]
pub(crate) struct Weight {
    pub(crate) part: u32,
    pub(crate) number: i32,
}

// Returns what a label that is below a component of a dimension adds to it.
fn weight_of(view: &TaxoView, part: u32, ord: u32) -> Weight
    requires list { IsLabelList view.now }
    requires part { (name text : List ℕ) × (slice_get view.now part ≡ Some (name ∷ text ∷ [])) }
    requires within { ord < length view.now }
    requires child { is_child view.now part ord ≡ true }
    ensures { (name text : List ℕ) → slice_get view.now part ≡ Some (name ∷ text ∷ [])
        → IsWeight view.now name ord result }
{
    match read_small_number(view.path_of(ord).part(2)) {
        Some(number) => Weight { part, number },
        None => Weight { part: 0, number: 0 },
    }
}

// Notes what each label below a component adds to it. It visits these labels alone.
fn note_below(view: &TaxoView, part: u32, weights: &mut [Weight])
    requires list { IsLabelList view.now }
    requires part { (name text : List ℕ) × (slice_get view.now part ≡ Some (name ∷ text ∷ [])) }
    requires sized { length weights.old ≡ length view.now }
    ensures { (name text : List ℕ) → slice_get view.now part ≡ Some (name ∷ text ∷ [])
        → AreNotedBelow view.now name part weights.old weights.new }
{
    let mut next = child_of(view, part);
    while let Some(child) = next {
        weights[child as usize] = weight_of(view, part, child);
        next = sibling_of(view, child);
    }
}

// Notes what each label below a component of a dimension adds to it, where nothing was noted before. It visits the
// components and these labels alone.
fn note_weights(view: &TaxoView, dim: u32, weights: &mut [Weight])
    requires list { IsLabelList view.now }
    requires dim { (name : List ℕ) × (slice_get view.now dim ≡ Some (name ∷ [])) }
    requires none { weights.old ≡ replicate (length view.now) no_weight }
    ensures { (name : List ℕ) → slice_get view.now dim ≡ Some (name ∷ []) → AreWeights view.now name weights.new }
{
    let mut next = child_of(view, dim);
    while let Some(part) = next {
        note_below(view, part, weights);
        next = sibling_of(view, part);
    }
}

/// Returns what each label of the view adds to a component of a dimension. It visits the labels of the dimension that
/// have two or three components, and reads the texts of those that have three. It allocates 8 bytes for each label of
/// the view, and sets them to zero. Errors: out of memory.
pub(crate) fn weights_of(alloc: Global, view: &TaxoView, dim: u32) -> Result<Vec<Weight>, NoMemory>
    requires { (name : List ℕ) × (slice_get view.now dim ≡ Some (name ∷ [])) }
    ensures { IfOk result (λ v. (name : List ℕ) → slice_get view.now dim ≡ Some (name ∷ [])
        → AreWeights view.now name v.items) }
{
    let size = view.size() as usize;
    let mut weights = vec![in alloc; Weight { part: 0, number: 0 }; size]?;
    note_weights(view, dim, &mut weights);
    Ok(weights)
}
