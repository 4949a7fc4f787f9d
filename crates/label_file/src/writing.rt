ghost use Rattle.std.specs.Prelude.{◌≡◌, ◌≤◌, ◌<◌, ◌-◌, ◌++◌, Some, Ok, length, take, drop, slice_index_or, IfOk, OnOk};
ghost use Rattle.std.specs.Prelude.{[]};
ghost use Rattle.std.specs.List.{flat_map, AllByRecursion};
ghost use Rattle.facet_names.specs.Labels.{IsLabelList};
ghost use Rattle.label_file.specs.LabelBytes.{IsStorable, label_bytes, labels_bytes};
ghost use Rattle.label_file.specs.LabelReading.{stored_labels};

use facet_codec::{NoMemory, put_text, put_u32};
use std::alloc::Global;
use taxo_list::{Labelled, TaxoView};

/// Appends the label at an ordinal.
fn put_label(out: &mut Vec<u8>, view: &TaxoView, ord: u32) -> Result<(), NoMemory>
    requires list { IsLabelList view.now }
    requires few { length view.now ≤ 1000000 }
    requires some { 0 < ord }
    requires within { ord < length view.now }
    ensures bytes { OnOk result (out.new.items ≡ out.old.items
        ++ label_bytes view.now (slice_index_or view.now ord [])) }
    ensures fits { OnOk result (IsStorable (slice_index_or view.now ord [])) }
{
    let path = view.path_of(ord);
    put_u32(out, view.arrays().parent(ord) as u32)?;
    put_text(out, path.part(path.len() - 1))?;
    Ok(())
}

/// Appends the labels from the ordinal `first` on.
fn put_labels(out: &mut Vec<u8>, view: &TaxoView, first: u32) -> Result<(), NoMemory>
    requires some { 0 < first }
    requires within { first < length view.now }
    ensures bytes { OnOk result (out.new.items ≡ out.old.items
        ++ flat_map (label_bytes view.now) (drop first view.now)) }
    ensures fit { OnOk result (AllByRecursion IsStorable (drop first view.now)) }
{
    for ord in first..view.size() {
        put_label(out, view, ord)?;
    }
    Ok(())
}

/// Returns the taxonomy segment of the labels from the ordinal `first` on. It allocates the bytes: 16, and for each
/// label five or six and those of its last component.
///
/// Errors: out of memory.
#[tactic(auto, unfolding(crate::specs::LabelBytes::labels_bytes))]
pub fn write_labels(alloc: Global, view: &TaxoView, first: u32) -> Result<Vec<u8>, NoMemory>
    requires some { 0 < first }
    requires within { first < length view.now }
    ensures bytes { IfOk result (λ v. v.items ≡ labels_bytes view.now first) }
    ensures again { IfOk result (λ v. stored_labels (take first view.now) first (length view.now - first) v.items
        ≡ Ok view.now) }
{
    let count = view.size() - first;
    let mut out = Vec::new(alloc);
    put_u32(&mut out, 0x4654_4158)?;
    put_u32(&mut out, 1)?;
    put_u32(&mut out, first)?;
    put_u32(&mut out, count)?;
    put_labels(&mut out, view, first)?;
    Ok(out)
}
