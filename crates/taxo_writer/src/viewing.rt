//! Views that share what they have in common with the last one.
ghost use Rattle.std.specs.Prelude.{◌≡◌, IfOk};
ghost use Rattle.std.specs.Arc.{arc_value};
ghost use mathlib.Core.List.{IsPrefix};
ghost use Rattle.facet_names.specs.Labels.{IsLabelList};

use facet_names::NoMemory;
use std::alloc::Global;
use std::sync::Arc;
use taxo_list::{Labelled, TaxoView, Taxonomy};

/// Returns the view of these labels. Without a new label it is the last view, with one owner more. Otherwise it is a
/// new view that shares its labels with the last one: the new labels are copied, and at most 4,095 others.
///
/// Errors: out of memory.
pub fn renewed(
    alloc: Global,
    labels: &Taxonomy,
    last: &Arc<TaxoView>,
) -> Result<Arc<TaxoView>, NoMemory>
    requires last { IsPrefix (arc_value last.now) labels.now }
    ensures view { IfOk result (λ v. arc_value v ≡ labels.now) }
    ensures list { IsLabelList labels.now }
{
    if labels.size() == last.size() {
        return Ok(Arc::try_clone(last)?);
    }
    let view = labels.view_after(last)?;
    Ok(Arc::new(alloc, view)?)
}
