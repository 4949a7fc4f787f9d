use crate::lines::are_written;
use facet_model::Query;
use facet_words::{Command, Order, Script, ScriptFault, Settings, read_script};
use number_facets::Range;
use std::alloc::Global;
use std::test::Fail;
use test_keys::fixed_keys;

// A script with every setting.
const SHOP: &[u8] =
    b"{\"cmd\":\"config\",\"max_docs\":7,\"max_labels\":8,\"stripes\":9,\"cache\":10,\"auto_merge\":true,\"dims\":[{\"dim\":\"Tag\",\"multi_valued\":true}]}\n{\"s\":1,\"cmd\":\"search\",\"query\":{\"bool\":{\"must_not\":[{\"term\":\"a\"}]}},\"drill\":[[\"Tag\"]],\"sideways\":true,\"ask\":[{\"all\":3},{\"specific\":[\"Tag\",\"x\"]}]}\n{\"s\":1,\"cmd\":\"search\"}\n{\"s\":1,\"cmd\":\"ranges\",\"dim\":\"price\",\"ranges\":[{\"name\":\"low\",\"min\":0,\"max\":10},{\"name\":\"mid\",\"min\":10,\"max\":20,\"min_open\":true}]}\n{\"s\":1,\"cmd\":\"sums\",\"query\":{\"bool\":{\"must\":[{\"term\":\"a\"}]}},\"drill\":[[\"Tag\",\"x\"],[\"Tag\",\"y\"]],\"dim\":\"genre\",\"n\":9}\n{\"cmd\":\"phase\"}\n{\"s\":1,\"cmd\":\"document\",\"at\":7}\n{\"s\":1,\"cmd\":\"stats\"}\n{\"s\":1,\"cmd\":\"commit\"}\n{\"s\":1,\"cmd\":\"merge\"}";

// Returns how many queries each list of a boolean query has.
fn lists(query: &Query) -> Option<(usize, usize, usize)> {
    match query {
        Query::Bool {
            must,
            should,
            must_not,
        } => Some((must.len(), should.len(), must_not.len())),
        _ => None,
    }
}

// Returns how many of the ranges have the number 10.
fn with_ten(ranges: &[Range]) -> usize {
    ranges.iter().filter(|range| range.contains(10)).count()
}

// A summary of a command.
type Summary = (Option<(usize, usize, usize)>, usize, bool, usize, u32);

fn summary(command: &Command) -> Summary {
    match command {
        Command::Search { on: _, line } => (
            lists(&line.query),
            line.drill.paths().len(),
            line.sideways,
            line.asks.len(),
            line.hits,
        ),
        Command::Ranges {
            on: _,
            line,
            ranges,
        } => (
            lists(&line.query),
            line.drill.paths().len(),
            line.dim.text() == "price",
            with_ten(ranges),
            0,
        ),
        Command::Sums { on: _, line, n } => (
            lists(&line.query),
            line.drill.paths().len(),
            line.dim.text() == "genre",
            0,
            *n,
        ),
        Command::Document { on: _, at } => (None, 0, false, 0, *at),
        Command::Stats { on: _ } => (None, 1, false, 0, 0),
        Command::Commit => (None, 2, false, 0, 0),
        Command::Merge => (None, 3, false, 0, 0),
        _ => (None, 0, false, 0, 0),
    }
}

// Returns the limits, the stripes and the capacity of the cache.
fn numbers(settings: &Settings) -> (u32, u32, u32, u32) {
    let Settings {
        max_docs,
        max_labels,
        stripes,
        cache,
        ..
    } = settings;
    (*max_docs, *max_labels, *stripes, *cache)
}

// Returns whether the only phase has no command.
fn has_no_order(script: &Script) -> bool {
    script.phases.len() == 1 && script.phases[0].is_empty()
}

// Returns whether a script without a key and without a command has the default settings.
fn has_defaults(alloc: Global) -> Result<bool, Fail> {
    let script = read_script(alloc, fixed_keys()?, b"{\"cmd\":\"config\"}\n")?;
    let numbers = numbers(&script.settings) == (1_000_000, 1_000_000, 16, 4_096);
    Ok(has_no_order(&script) && numbers && !script.settings.auto_merge)
}

fn has_settings(script: &Script) -> bool {
    let tag = script.settings.config.flags("Tag");
    let flags = tag.multi_valued && !tag.hierarchical && !tag.require_dim_count;
    flags && numbers(&script.settings) == (7, 8, 9, 10) && script.settings.auto_merge
}

// The commands of the two phases.
const SUMMARIES: &[&[Summary]] = &[
    &[
        (Some((0, 0, 1)), 1, true, 2, 10),
        (None, 0, false, 0, 10),
        (None, 0, true, 1, 0),
        (Some((1, 0, 0)), 2, true, 0, 9),
    ],
    &[
        (None, 0, false, 0, 7),
        (None, 1, false, 0, 0),
        (None, 2, false, 0, 0),
        (None, 3, false, 0, 0),
    ],
];

// Returns whether the commands of a phase are of session 1, and have these summaries.
fn are_as_told(orders: &[Order], expected: &[Summary]) -> bool {
    let same = |(order, expected): (&Order, &Summary)| -> bool {
        order.session == 1 && summary(&order.command) == *expected
    };
    orders.len() == expected.len() && orders.iter().zip(expected).all(same)
}

// Returns whether the commands of all phases have their summaries.
fn has_orders(script: &Script) -> bool {
    let same = |(orders, expected): (&Vec<Order>, &&[Summary])| -> bool {
        are_as_told(orders, *expected)
    };
    script.phases.len() == SUMMARIES.len() && script.phases.iter().zip(SUMMARIES).all(same)
}

// Returns whether the script is read as expected.
fn is_read(alloc: Global) -> Result<bool, Fail> {
    let script = read_script(alloc, fixed_keys()?, SHOP)?;
    Ok(has_settings(&script) && has_orders(&script))
}

// Returns whether a merge with another key is not a command.
fn has_no_further_key(alloc: Global) -> Result<bool, Fail> {
    let read = read_script(
        alloc,
        fixed_keys()?,
        b"{\"cmd\":\"config\"}\n{\"s\":1,\"cmd\":\"merge\"}\n{\"s\":1,\"cmd\":\"merge\",\"n\":1}\n",
    );
    match read {
        Err(ScriptFault::BadShape { line }) => Ok(line == 3),
        _ => Ok(false),
    }
}

#[test]
fn what_is_read_and_what_is_written(rt: HostRuntime) -> Result<(), Fail> {
    let alloc = rt.alloc();
    assert!(rt;
        are_written(alloc)? && is_read(alloc)? && has_defaults(alloc)? && has_no_further_key(alloc)?
    );
    Ok(())
}
