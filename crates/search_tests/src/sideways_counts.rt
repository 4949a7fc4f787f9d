ghost use Rattle.std.specs.Prelude.{◌≤◌, List, length, map};
ghost use Rattle.std.specs.Arc.{arc_value};
ghost use Rattle.facet_model.specs.Documents.{Doc};
ghost use Rattle.facet_model.specs.Stored.{Decodes};

use crate::making::{Labels, all_stored, entry};
use crate::near_misses::are_alike_in_stores;
use crate::records::records;
use facet_config::FacetsConfig;
use facet_model::{Drill, Query};
use facet_names::Path;
use live_records::laws::{of_alive, of_made};
use seg_file::{Entry, Segment};
use sideways::{DrillPlan, SearchAsk};
use std::alloc::Global;
use std::sync::Arc;
use std::test::Fail;
use taxo_list::{Labelled, TaxoView, Taxonomy};
use test_keys::fixed_keys;

// Returns a search for all documents, drilled down to one author.
fn drilled(alloc: Global, sideways: bool) -> Result<SearchAsk, Fail> {
    let paths = vec![in alloc; Path::of(alloc, &["Author", "Bob"])?]?;
    if paths.len() > 256 {
        return Err("one path".into());
    }
    Ok(SearchAsk {
        query: Query::All,
        drill: Drill::new(alloc, paths)?,
        asks: Vec::new(alloc),
        newest: false,
        show: false,
        from: 0,
        hits: 10,
        sideways,
    })
}

// Returns how many documents each author has, by the counts of the answer.
fn counted(
    alloc: Global,
    view: &TaxoView,
    config: &FacetsConfig,
    segments: &[Arc<Segment>],
    sideways: bool,
) -> Result<(u32, u32), Fail>
    requires { (docs : List Doc) × Decodes view.now config.now (map arc_value segments.now) docs
        × (length docs ≤ 1000000) }
{
    let ask = drilled(alloc, sideways)?;
    let Ok(plan) = DrillPlan::new(alloc, view, config, segments, &ask) else {
        return Err("a plan".into());
    };
    let answer = plan.run();
    if view.size() != 4 {
        return Err("the root, a dimension and two authors".into());
    }
    let counts = answer.counts("Author");
    Ok((counts.at(2), counts.at(3)))
}

// One book of Bob, and two of Lisa.
fn books(alloc: Global, list: &mut Taxonomy) -> Result<Vec<Entry>, Fail> {
    let mut entries = Vec::new(alloc);
    for (id, author) in [("b1", "Bob"), ("b2", "Lisa"), ("b2", "Lisa")] {
        let mut labels = Labels::new(alloc);
        labels.add(alloc, list, &["Author", author])?;
        entries.push(entry(alloc, id, "", labels)?)?;
    }
    Ok(entries)
}

// Returns whether the authors of three documents are counted so, with sideways and without.
fn are_both_counted(
    alloc: Global,
    labels: &Taxonomy,
    config: &FacetsConfig,
    segments: &[Arc<Segment>],
) -> Result<bool, Fail>
    requires { (docs : List Doc) × Decodes labels.now config.now (map arc_value segments.now) docs }
{
    let view = labels.view()?;
    match records(segments) {
        Some(3) => {
            let beside = counted(alloc, &view, config, segments, true)?;
            let without = counted(alloc, &view, config, segments, false)?;
            Ok(beside == (1, 2) && without == (1, 0))
        }
        _ => Ok(false),
    }
}

fn are_books_counted(alloc: Global) -> Result<bool, Fail> {
    let config = FacetsConfig::new(alloc, fixed_keys()?);
    let mut list = Taxonomy::new(alloc, fixed_keys()?)?;
    let batches = vec![in alloc; books(alloc, &mut list)?]?;
    let segments = all_stored(alloc, &config, &list, &batches)?;
    are_both_counted(alloc, &list, &config, &segments)
}

#[test]
fn counts_of_answers(rt: HostRuntime) -> Result<(), Fail> {
    let alloc = rt.alloc();
    assert!(rt; are_books_counted(alloc)? && are_alike_in_stores(alloc)?);
    of_alive::<u32>();
    of_made::<u32, u32>();
    Ok(())
}
