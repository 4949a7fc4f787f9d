//! Which documents a config accepts.
ghost use Rattle.std.specs.Prelude.{◌≡◌, ◌<◌, length};
ghost use Rattle.std.specs.List.{list_any};
ghost use Rattle.std.specs.Str.{bytes_eq};
ghost use Rattle.facet_model.specs.Documents.{dim_of};
ghost use Rattle.facet_model.specs.Accepts.{broken_at, first_broken};
ghost use Rattle.facet_config.specs.Faults.{outcome};

use crate::config::FacetsConfig;
use crate::fault::DocFault;
use facet_model::Document;
use facet_names::Path;

impl FacetsConfig {
    /// Checks that the document may be added, as Lucene's `FacetsConfig.build` does. Each facet needs a component after
    /// its dimension, and exactly one unless the dimension is hierarchical. A dimension may occur more than once only
    /// if it is multi-valued.
    ///
    /// It compares each facet of a dimension that is not multi-valued with those before it. It allocates nothing.
    ///
    /// Errors: the first facet that breaks a rule, with the first rule that it breaks.
    pub fn check(&self, doc: &Document) -> Result<(), DocFault>
        ensures { outcome result ≡ first_broken self.now doc.now }
    {
        let facets = doc.facets();
        for (at, facet) in facets.iter().enumerate() {
            self.check_facet(facets, at, facet)?;
        }
        Ok(())
    }

    // Checks the facet at a place.
    fn check_facet(&self, facets: &[Path], at: usize, facet: &Path) -> Result<(), DocFault>
        requires { at < length facets.now }
        ensures { outcome result ≡ broken_at self.now facets.now (at, facet.now) }
    {
        let dim = facet.dim();
        let flags = self.flags(dim);
        if facet.len() == 1 {
            return Err(DocFault::NoComponent { facet: at as u64 });
        }
        if !flags.hierarchical && facet.len() != 2 {
            return Err(DocFault::NotHierarchical {
                facet: at as u64,
                len: facet.len() as u64 - 1,
            });
        }
        let (earlier, _) = facets.split_at(at);
        if !flags.multi_valued && has_dimension(earlier, dim) {
            return Err(DocFault::NotMultiValued { facet: at as u64 });
        }
        Ok(())
    }
}

fn has_dimension(facets: &[Path], dim: &str) -> bool
    ensures { result ≡ list_any (λ l. bytes_eq (dim_of l) dim.now) facets.now }
{
    facets.iter().any(|facet| facet.dim() == dim)
}
