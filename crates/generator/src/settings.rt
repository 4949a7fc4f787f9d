ghost use Rattle.std.specs.Prelude.{◌≡◌, ◌++◌, ◌∷◌, [], IfOk, None, OnOk};
ghost use Rattle.facet_config.specs.Faults.{declare_fault};
ghost use Rattle.facet_words.specs.CommandViews.{settings_view};
ghost use Rattle.generator.specs.Generated.{generated_settings};

use facet_config::{DeclareFault, FacetsConfig};
use facet_model::DimFlags;
use facet_names::NoMemory;
use facet_words::Settings;
use std::alloc::Global;
use std::hash::RandomState;

fn declare(config: &mut FacetsConfig, dim: &str, flags: DimFlags) -> Result<(), NoMemory>
    requires { declare_fault config.old dim.now ≡ None }
    ensures { OnOk result (config.new ≡ config.old ++ (dim.now, flags) ∷ []) }
{
    match config.declare(dim, flags) {
        Ok(()) => Ok(()),
        Err(DeclareFault::NoMemory) => Err(NoMemory),
        Err(_) => unreachable!(),
    }
}

fn config(alloc: Global, keys: RandomState) -> Result<FacetsConfig, NoMemory>
    ensures { IfOk result (λ c. c ≡ generated_settings.config) }
{
    let date = DimFlags {
        hierarchical: true,
        multi_valued: false,
        require_dim_count: false,
    };
    let tag = DimFlags {
        hierarchical: false,
        multi_valued: true,
        require_dim_count: false,
    };
    let mut config = FacetsConfig::new(alloc, keys);
    declare(&mut config, "Date", date)?;
    declare(&mut config, "Tag", tag)?;
    Ok(config)
}

/// Returns the settings of generated documents.
pub(crate) fn settings(alloc: Global, keys: RandomState) -> Result<Settings, NoMemory>
    ensures { IfOk result (λ s. settings_view s ≡ generated_settings) }
{
    let config = config(alloc, keys)?;
    Ok(Settings {
        config,
        max_docs: 1_000_000,
        max_labels: 1_000_000,
        stripes: 16,
        cache: 4_096,
        auto_merge: false,
    })
}
