//! Looking for a dimension.
ghost use Rattle.std.specs.Prelude.{◌≡◌, ℕ, [], ◌∷◌, Some, slice_get, IfNone, IfOk, IfSome};

use facet_names::{NoMemory, Path, PathFault};
use std::alloc::Global;
use taxo_list::{Labelled, TaxoView};

// Does the same as `dim_at`. It visits the dimensions of the view.
fn dim_among(view: &TaxoView, dim: &str) -> Option<u32>
    ensures some { IfSome result (λ ord. slice_get view.now ord ≡ Some (dim.now ∷ [])) }
    ensures none { IfNone result ((ord : ℕ) → slice_get view.now ord ≡ Some (dim.now ∷ []) → ⊥) }
{
    for ord in view.dims() {
        if view.path_of(*ord).dim() == dim {
            return Some(*ord);
        }
    }
    None
}

/// Returns the ordinal of a dimension, or `None` if the view does not have it. It takes one look-up, as
/// [`ordinal_of`](TaxoView::ordinal_of) does. Errors: out of memory.
pub(crate) fn dim_at(alloc: Global, view: &TaxoView, dim: &str) -> Result<Option<u32>, NoMemory>
    ensures some { IfOk result (λ o. IfSome o (λ ord. slice_get view.now ord ≡ Some (dim.now ∷ []))) }
    ensures none { IfOk result (λ o. IfNone o ((ord : ℕ) → slice_get view.now ord ≡ Some (dim.now ∷ []) → ⊥)) }
{
    match Path::of_dim(alloc, dim) {
        Ok(path) => Ok(view.ordinal_of(&path)),
        Err(PathFault::NoMemory) => Err(NoMemory),
        // No label can have this name, but a view does not state that of its labels.
        Err(_) => Ok(dim_among(view, dim)),
    }
}
