//! Which ordinals are counted for a document.
ghost use Rattle.std.specs.Prelude.{◌≡◌, ◌<◌, ◌≤◌, ◌++◌, ℕ, nat_eq, [], ◌∷◌, length, take, if◌then◌else◌, IfOk, OnOk};
ghost use Rattle.std.specs.List.{list_any};
ghost use Rattle.std.specs.List.Sorted.{IsStrictlySortedBy};
ghost use Rattle.std.specs.Ordering.{nat_cmp};
ghost use Rattle.facet_model.specs.CountedPaths.{is_counted_for, ordinals_of_label};
ghost use Rattle.facet_config.specs.Expanding.{AreAsLong, AreExpanded};

use crate::config::FacetsConfig;
use facet_model::{Counted, DimFlags, Document, Resolved};
use facet_names::{NoMemory, Path};
use std::alloc::Global;

impl FacetsConfig {
    /// Returns the ordinals that are counted for a document, each once and rising, as Lucene's `FacetsConfig.build`
    /// adds them. `resolved` has the ordinals of each label's prefixes.
    ///
    /// - The ordinals of the labels are counted.
    /// - In a multi-valued dimension that is hierarchical or requires a count, those of their ancestors are counted
    ///   too. The dimension's own ordinal is among them only if its count is required.
    ///
    /// It sorts the ordinals, and allocates memory for them. Errors: out of memory.
    pub fn expand(
        &self,
        alloc: Global,
        doc: &Document,
        resolved: &[Resolved],
    ) -> Result<Counted, NoMemory>
        requires { AreAsLong doc.now.labels resolved.now }
        ensures { IfOk result (λ c. AreExpanded self.now doc.now.labels resolved.now c) }
    {
        let facets = doc.facets();
        let mut ords = Vec::new(alloc);
        for (at, label) in facets.iter().enumerate() {
            self.expand_label(label, &resolved[at], &mut ords)?;
        }
        Ok(once(ords))
    }

    // Adds the ordinals that are counted for a label.
    fn expand_label(
        &self,
        label: &Path,
        resolved: &Resolved,
        ords: &mut Vec<u32>,
    ) -> Result<(), NoMemory>
        requires { length resolved.now ≡ length label.now }
        ensures ords { OnOk result (ords.new.items ≡ ords.old.items
            ++ ordinals_of_label self.now label.now resolved.now) }
        ensures some { 0 < length label.now }
    {
        let flags = self.flags(label.dim());
        for (at, ord) in resolved.prefixes().iter().enumerate() {
            let counted = counts_prefix(flags, label, at + 1);
            push_where(ords, counted, *ord)?;
        }
        Ok(())
    }
}

// Returns whether the prefix of `len` components is counted for a label.
#[tactic(auto, using(crate::proofs::Expanded::counted_prefix))]
fn counts_prefix(flags: DimFlags, label: &Path, len: usize) -> bool
    requires some { 0 < len }
    requires within { len ≤ length label.now }
    ensures { result ≡ is_counted_for flags label.now (take len label.now) }
{
    let above = flags.multi_valued
        && (flags.hierarchical || flags.require_dim_count)
        && (len > 1 || flags.require_dim_count);
    len == label.len() || above
}

fn push_where(ords: &mut Vec<u32>, wanted: bool, ord: u32) -> Result<(), NoMemory>
    ensures { OnOk result (ords.new.items ≡ ords.old.items ++ (if wanted then ord ∷ [] else [])) }
{
    if wanted {
        ords.push(ord)?;
    }
    Ok(())
}

// Returns each of the ordinals once, rising.
fn once(mut ords: Vec<u32>) -> Counted
    ensures members { (ord : ℕ) → list_any (nat_eq ord) result ≡ list_any (nat_eq ord) ords.items }
    ensures rising { IsStrictlySortedBy nat_cmp result }
{
    ords.sort_unstable();
    ords.dedup();
    Counted::new(ords)
}
