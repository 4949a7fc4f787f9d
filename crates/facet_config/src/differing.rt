//! Where two configs differ.
ghost use Rattle.std.specs.Prelude.{◌≡◌, ℕ, List, map, fold, option_map, IfSome, IfNone};
ghost use Rattle.facet_model.specs.Flags.{flags};
ghost use Rattle.facet_config.specs.Declarations.{IsDimension};
ghost use Rattle.facet_config.specs.Differences.{IsFirstDifference, first_different, is_different, nearer};

use crate::config::FacetsConfig;

impl FacetsConfig {
    /// Returns the first dimension, in the order of bytes, whose flags differ in the two configs, or `None`. It looks
    /// up each declaration of both, and allocates nothing.
    pub fn differs<'a>(&'a self, other: &'a FacetsConfig) -> Option<&'a str>
        ensures is { option_map (λ s. s.now) result ≡ first_different self.now other.now }
        ensures none { IfNone result ((dim : List ℕ) → flags self.now dim ≡ flags other.now dim) }
        ensures first { IfSome result (λ d. IsFirstDifference self.now other.now d.now) }
        ensures named { IfSome result (λ d. IsDimension d.now) }
    {
        let own = self.first_different(self, other, None);
        other.first_different(self, other, own)
    }

    // Returns the first of a dimension and of those declared here that differ in the two configs.
    fn first_different<'a>(
        &'a self,
        one: &FacetsConfig,
        other: &FacetsConfig,
        before: Option<&'a str>,
    ) -> Option<&'a str>
        requires { IfSome before (λ d. IsDimension d.now) }
        ensures is { option_map (λ s. s.now) result
            ≡ fold (nearer one.now other.now) (option_map (λ s. s.now) before.entry) (map (λ d. d.0) self.now) }
        ensures named { IfSome result (λ d. IsDimension d.now) }
    {
        let mut first = before;
        for dim in self.dims.keys() {
            first = nearer(one, other, first, dim.as_str());
        }
        first
    }
}

fn is_different(one: &FacetsConfig, other: &FacetsConfig, dim: &str) -> bool
    ensures { result ≡ is_different one.now other.now dim.now }
{
    let f = one.flags(dim);
    let g = other.flags(dim);
    f.hierarchical != g.hierarchical
        || f.multi_valued != g.multi_valued
        || f.require_dim_count != g.require_dim_count
}

// Returns the dimension if it differs in the two configs and is less than the first one so far.
fn nearer<'a>(
    one: &FacetsConfig,
    other: &FacetsConfig,
    first: Option<&'a str>,
    dim: &'a str,
) -> Option<&'a str>
    requires first { IfSome first (λ d. IsDimension d.now) }
    requires dim { IsDimension dim.now }
    ensures is { option_map (λ s. s.now) result
        ≡ nearer one.now other.now (option_map (λ s. s.now) first.entry) dim.now }
    ensures named { IfSome result (λ d. IsDimension d.now) }
{
    if !is_different(one, other, dim) {
        return first;
    }
    match first {
        Some(so_far) => {
            if dim < so_far {
                Some(dim)
            } else {
                Some(so_far)
            }
        }
        None => Some(dim),
    }
}
