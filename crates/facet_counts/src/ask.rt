//! Which asks are rejected.
ghost use Rattle.std.specs.Prelude.{◌≡◌};
ghost use Rattle.facet_model.specs.AskViews.{ask_view};
ghost use Rattle.facet_model.specs.Asks.{ask_fault, is_kept_path};
ghost use Rattle.facet_counts.specs.Asks.{refused};

use facet_config::FacetsConfig;
use facet_model::Ask;
use facet_names::Path;

/// Why an ask is rejected.
#[derive(Clone, Copy, Debug, PartialEq, Eq)]
pub enum AskFault {
    /// It asks for the top 0 children.
    TopZero,
    /// It asks for the value of a whole dimension. That is counted only if the dimension is hierarchical and not
    /// multi-valued, or multi-valued with a required count.
    DimValueNotKept,
}

// Returns whether the path's value is counted.
fn is_kept(config: &FacetsConfig, path: &Path) -> bool
    ensures { result ≡ is_kept_path config.now path.now }
{
    let flags = config.flags(path.dim());
    path.len() != 1
        || flags.hierarchical && !flags.multi_valued
        || flags.multi_valued && flags.require_dim_count
}

/// Checks that an ask has an answer. It allocates nothing. Errors: `TopZero`, `DimValueNotKept`.
pub fn check_ask(config: &FacetsConfig, ask: &Ask) -> Result<(), AskFault>
    ensures { refused result ≡ ask_fault config.now (ask_view ask.now) }
{
    match ask {
        Ask::Top { n, .. } | Ask::AllDims { n } if *n == 0 => Err(AskFault::TopZero),
        Ask::Specific { path } if !is_kept(config, path) => Err(AskFault::DimValueNotKept),
        _ => Ok(()),
    }
}
