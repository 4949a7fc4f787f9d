//! Joining the results of dimensions.
ghost use Rattle.std.specs.Prelude.{◌≡◌, ◌||◌, ◌∷◌, [], ℕ, List, Bool, false, None, OnOk, OnErr, map, option_map};
ghost use Rattle.std.specs.Str.{bytes_eq};
ghost use Rattle.facet_model.specs.Documents.{Doc};
ghost use Rattle.facet_model.specs.Flags.{Config};
ghost use Rattle.facet_model.specs.ResultViews.{result_view};
ghost use Rattle.facet_model.specs.Results.{IsTop, AreAllDims, dims_cmp};
ghost use Rattle.facet_counts.specs.Dims.{AreDims};

use facet_model::FacetResult;
use facet_names::NoMemory;
use std::cmp::Ordering;

/// Adds the result of one more dimension to those of others, if it has one. Each dimension may be counted over its own
/// documents. Errors: out of memory; then the results are as before.
pub fn note_dim(results: &mut Vec<FacetResult>, top: Option<FacetResult>) -> Result<(), NoMemory>
    ensures noted { OnOk result ((among : List ℕ → Bool) (config : Config) (docs_of : List ℕ
        → List Doc) (n : ℕ) (dim : List ℕ) → among dim ≡ false
        → IsTop config (docs_of dim) (dim ∷ []) n (option_map result_view top)
        → AreDims among config docs_of n (map result_view results.old.items)
        → AreDims (λ d. bytes_eq d dim || among d) config docs_of n (map result_view results.new.items)) }
    ensures same { OnErr result (results.new.items ≡ results.old.items) }
{
    if let Some(top) = top {
        results.push(top)?;
    }
    Ok(())
}

// by falling values, ties by the rising bytes of the dimensions
fn by_value(a: &FacetResult, b: &FacetResult) -> Ordering
    ensures { result ≡ dims_cmp (result_view a.now) (result_view b.now) }
{
    b.value.cmp(&a.value).then(a.path.cmp(&b.path))
}

/// Orders the results of all dimensions: by falling values, so that values of -1 come last, ties by the rising bytes of
/// the dimensions. It allocates nothing.
pub fn order_dims(results: &mut Vec<FacetResult>)
    ensures { (among : List ℕ → Bool) (config : Config) (docs_of : List ℕ → List Doc) (n : ℕ)
        → ((dim : List ℕ) → among dim ≡ false → IsTop config (docs_of dim) (dim ∷ []) n None)
        → AreDims among config docs_of n (map result_view results.old.items)
        → AreAllDims config docs_of n (map result_view results.new.items) }
{
    results.sort_unstable_by(|a, b| by_value(a, b));
}
