ghost use Rattle.std.specs.Prelude.{◌≡◌, IfOk, length};

use crate::making::{Row, segment};
use facet_model::{Drill, Query};
use facet_names::Path;
use plan_places::PlanPlaces;
use query_eval::{Plan, has_path, paths_node};
use seg_file::Segment;
use seg_postings::Places;
use std::alloc::Global;
use std::test::Fail;

const BOOKS: &[Row] = &[
    ("b", "Rust book", &[&["Author", "Bob"]], &[1]),
    ("b", "Go book", &[&["Author", "Lisa"]], &[1]),
    ("b", "rust\tGO", &[&["Year", "2012", "1"]], &[1]),
];

fn drill(alloc: Global) -> Result<Drill, Fail>
    ensures { IfOk result (λ drill. length drill ≡ 3) }
{
    let paths = vec![in alloc;
        Path::of(alloc, &["Author", "Lisa"])?,
        Path::of(alloc, &["Year"])?,
        Path::of(alloc, &["Author", "Zoe"])?,
    ]?;
    if paths.len() != 3 {
        return Err("three paths".into());
    }
    Ok(Drill::new(alloc, paths)?)
}

fn author_is_found(alloc: Global, books: &Segment, drill: &Drill) -> Result<bool, Fail> {
    let mut places = PlanPlaces::new(paths_node(alloc, books, drill, "Author")?);
    Ok(places.next() == Some(1) && places.next().is_none())
}

fn all_are_matched(alloc: Global, books: &Segment) -> Result<bool, Fail> {
    let mut plan = Plan::new(alloc, books, &Query::All)?;
    Ok(plan.matches(2) && !plan.matches(3))
}

fn year_is_there(alloc: Global, books: &Segment, drill: &Drill) -> Result<bool, Fail>
    requires { length drill.now ≡ 3 }
{
    Ok(has_path(alloc, books, drill.term(1))? && !has_path(alloc, books, drill.term(2))?)
}

fn are_drilled_down(alloc: Global, books: &Segment) -> Result<bool, Fail> {
    let drill = drill(alloc)?;
    Ok(author_is_found(alloc, books, &drill)? && year_is_there(alloc, books, &drill)?)
}

fn are_searched(alloc: Global) -> Result<bool, Fail> {
    let books = segment(alloc, BOOKS)?;
    Ok(are_drilled_down(alloc, &books)? && all_are_matched(alloc, &books)?)
}

#[test]
fn drilled_down(rt: HostRuntime) -> Result<(), Fail> {
    assert!(rt; are_searched(rt.alloc())?);
    Ok(())
}
