//! The hits of a search, segment by segment.
ghost use Rattle.std.specs.Prelude.{List, None, IfOk};
ghost use Rattle.std.specs.List.{AllByRecursion};
ghost use Rattle.facet_model.specs.Documents.{Doc};
ghost use Rattle.facet_model.specs.QueryViews.{query_view};
ghost use Rattle.query_eval.specs.Segments.{HasTermsOf};
ghost use Rattle.seg_drill.specs.Passing.{passes_all};
ghost use Rattle.sideways.specs.Counted.{ArePartsOf};
ghost use Rattle.sideways.specs.Searches.{records_of};

use facet_model::{Drill, Query};
use facet_names::NoMemory;
use seg_file::Segment;
use sideways::Part;
use std::alloc::Global;
use std::sync::Arc;

/// Returns for each segment the live records of the documents that match the query and pass the drill. Errors: out of
/// memory.
pub(crate) fn parts_of<'a>(
    alloc: Global,
    segments: &'a [Arc<Segment>],
    query: &Query,
    drill: &Drill,
) -> Result<Vec<Part<'a>>, NoMemory>
    requires { AllByRecursion (λ s. (docs : List Doc) × HasTermsOf s docs) (records_of segments.now) }
    ensures { IfOk result (λ v. ArePartsOf (passes_all (query_view query.now) drill.now None)
        (records_of segments.now) v.items) }
{
    let mut parts = Vec::with_capacity(alloc, segments.len())?;
    for segment in segments {
        parts.push(Part::new(alloc, segment, query, drill, None)?)?;
    }
    Ok(parts)
}
