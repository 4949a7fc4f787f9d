//! What a search asks for, and which searches are rejected.
ghost use Rattle.std.specs.Prelude.{◌≡◌, map, option_map};
ghost use Rattle.facet_model.specs.AskViews.{ask_view};
ghost use Rattle.facet_model.specs.Asks.{ask_fault};
ghost use Rattle.sideways.specs.Refusals.{refused_ask, first_refused};

use facet_config::FacetsConfig;
use facet_counts::{AskFault, check_ask};
use facet_model::{Ask, Drill, Query};

/// A search over the documents of a snapshot. It corresponds to the query and the collectors of Lucene's
/// `DrillSideways.search`.
#[derive(Debug, Drop)]
pub struct SearchAsk {
    /// Which documents match.
    pub query: Query,
    /// The paths that the search is drilled down to.
    pub drill: Drill,
    /// The counts that it asks for. Each has an answer at the same place.
    pub asks: Vec<Ask>,
    /// Whether hits are listed from the last document on.
    pub newest: bool,
    /// Whether whoever lists the hits shows their documents. No answer depends on it.
    pub show: bool,
    /// How many hits to pass before the first one whose place is returned.
    pub from: u32,
    /// How many places of hits to return, at most. None is returned of a hit after the first 1,000,000.
    pub hits: u32,
    /// Whether a drilled dimension is counted over the documents that match the query and all other drilled dimensions.
    /// If not, it is counted over the hits.
    pub sideways: bool,
}

/// Why a search is rejected. Places count the asks from 0.
#[derive(Clone, Copy, Debug, PartialEq, Eq)]
pub enum AskRefused {
    /// The ask at this place asks for the top 0 children.
    TopZero { ask: u64 },
    /// The ask at this place asks for the value of a whole dimension, and the config does not keep it.
    DimValueNotKept { ask: u64 },
    /// Out of memory.
    NoMemory,
}

// Returns why the ask at a place is rejected, or `None`.
fn refusal_of(config: &FacetsConfig, at: u64, ask: &Ask) -> Option<AskRefused>
    ensures { result ≡ option_map (refused_ask at) (ask_fault config.now (ask_view ask.now)) }
{
    match check_ask(config, ask) {
        Ok(()) => None,
        Err(AskFault::TopZero) => Some(AskRefused::TopZero { ask: at }),
        Err(AskFault::DimValueNotKept) => Some(AskRefused::DimValueNotKept { ask: at }),
    }
}

/// Returns why the first rejected ask is rejected, or `None` if none is. It allocates nothing.
pub(crate) fn first_refusal(config: &FacetsConfig, asks: &[Ask]) -> Option<AskRefused>
    ensures { result ≡ first_refused config.now (map ask_view asks.now) }
{
    for (at, ask) in asks.iter().enumerate() {
        if let Some(refusal) = refusal_of(config, at as u64, ask) {
            return Some(refusal);
        }
    }
    None
}
