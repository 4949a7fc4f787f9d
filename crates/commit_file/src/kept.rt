ghost use Rattle.std.specs.Prelude.{◌≡◌, ◌++◌, ◌∷◌, [], map, OnOk, IfOk, if◌then◌else◌};
ghost use Rattle.facet_config.specs.Declarations.{AreDimensions};
ghost use Rattle.commit_file.specs.Commits.{declaration, entry, in_order, is_some_set, kept_of};

use facet_config::FacetsConfig;
use facet_model::DimFlags;
use facet_names::NoMemory;
use std::alloc::Global;
use std::collections::BTreeMap;

/// A declared dimension with its flags.
#[derive(Clone, Copy)]
pub(crate) struct Declaration<'a> {
    pub dim: &'a str,
    pub flags: DimFlags,
}

// Returns the flags of each declared dimension, in the order of bytes; of two declarations of one dimension, the first.
#[tactic(auto, unfolding(crate::specs::Commits::in_order))]
fn in_order(alloc: Global, config: &FacetsConfig) -> Result<BTreeMap<&str, DimFlags>, NoMemory>
    ensures is { IfOk result (λ m. map entry m.entries ≡ in_order config.now) }
    ensures named { AreDimensions config.now }
{
    let mut all = BTreeMap::new(alloc);
    let mut at = config.len();
    while at > 0 {
        at -= 1;
        let (dim, flags) = config.declared(at);
        all.insert(dim, flags)?;
    }
    Ok(all)
}

fn is_some_set(flags: DimFlags) -> bool
    ensures { result ≡ is_some_set flags }
{
    flags.hierarchical || flags.multi_valued || flags.require_dim_count
}

fn push_set<'a>(kept: &mut Vec<Declaration<'a>>, one: Declaration<'a>) -> Result<(), NoMemory>
    ensures { OnOk result (map declaration kept.new.items
        ≡ map declaration kept.old.items ++ (if is_some_set one.entry.flags then declaration one.entry ∷ [] else [])) }
{
    if is_some_set(one.flags) {
        kept.push(one)?;
    }
    Ok(())
}

/// Returns the declarations of a config that set a flag, in the order of their dimensions' bytes.
#[tactic(auto, unfolding(crate::specs::Commits::kept_of))]
pub(crate) fn kept(alloc: Global, config: &FacetsConfig) -> Result<Vec<Declaration<'_>>, NoMemory>
    ensures is { IfOk result (λ v. map declaration v.items ≡ kept_of config.now) }
    ensures named { IfOk result (λ v. AreDimensions (map declaration v.items)) }
{
    let all = in_order(alloc, config)?;
    let mut kept = Vec::new(alloc);
    for (dim, flags) in all {
        push_set(&mut kept, Declaration { dim, flags })?;
    }
    Ok(kept)
}
