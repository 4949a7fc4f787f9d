//! Which of two ways to find the places of a segment is cheaper, by estimates of instructions. No contract depends on
//! them.
use facet_model::{Drill, Query};
use plan_places::PlanNode;

// In a walk: a list that is asked for a place, and a term that is looked up.
const ASKED: u64 = 60;

const LOOKED_UP: u64 = 500;

// A place that is marked. A word, for 64 documents, of a set that is made and combined, and of one that is counted.
const MARKED: u64 = 8;

const COMBINED: u64 = 10;

const COUNTED: u64 = 50;

/// Returns about how many lists of places a search has: those of the query's words, and one for each path of the drill.
pub(crate) fn lists_of(query: &Query, drill: &Drill) -> u64 {
    words_of(query).saturating_add(drill.paths().len() as u64)
}

// Returns how many words a query looks up.
#[cycle(words)]
fn words_of(query: &Query) -> u64 {
    match query {
        Query::All => 0,
        Query::Term(_) => 1,
        Query::Bool {
            must,
            should,
            must_not,
        } => {
            let found = if must.is_empty() {
                words_in(should)
            } else {
                words_in(must)
            };
            found.saturating_add(words_in(must_not))
        }
    }
}

// Returns how many words the queries look up together.
#[cycle(words)]
fn words_in(queries: &[Query]) -> u64 {
    let mut words: u64 = 0;
    for query in queries {
        words = words.saturating_add(words_of(query));
    }
    words
}

// Returns the number of places of the two nodes that have the fewest. A missing node counts as all documents.
fn fewest_two(nodes: &[PlanNode<'_>], docs: u64) -> (u64, u64) {
    let mut fewest = docs;
    let mut second = docs;
    for node in nodes {
        second = second.min(fewest.max(node.at_most()));
        fewest = fewest.min(node.at_most());
    }
    (fewest, second)
}

// Returns the cost of marking the places of each node. A node that does not consist of lists is walked over.
fn marking(nodes: &[PlanNode<'_>]) -> u64 {
    let mut all: u64 = 0;
    for node in nodes {
        let each = if node.is_of_lists() {
            MARKED
        } else {
            2 * ASKED
        };
        all = all.saturating_add(node.at_most().saturating_mul(each));
    }
    all
}

// Returns the cost of a walk at each place of its lead, if the nodes have so many lists. It asks the lead and the node
// with the next fewest places. It asks the others as often as that one has the place.
fn asking(nodes: u64, lists: u64, second: u64, docs: u64) -> u64 {
    let always = nodes.min(2).saturating_mul(docs);
    let then = nodes.saturating_sub(2).saturating_mul(second);
    let asked = lists.saturating_mul(always.saturating_add(then));
    asked.saturating_mul(ASKED) / nodes.saturating_mul(docs).max(1)
}

// Returns the cost of the words of sets, some of which are counted.
fn combining(sets: u64, counted: u64, docs: u64) -> u64 {
    let each = sets
        .saturating_mul(COMBINED)
        .saturating_add(counted.saturating_mul(COUNTED));
    each.saturating_mul(docs / 64 + 1)
}

/// Returns whether bits are the cheaper way to the places that the nodes have in common. A walk asks all nodes at each
/// place of the one that has the fewest. Bits mark all places of all nodes, and cost a few words for 64 documents.
pub(crate) fn are_many(nodes: &[PlanNode<'_>], lists: u64, docs: u32) -> bool {
    let docs = docs as u64;
    let number = nodes.len() as u64;
    let (lead, second) = fewest_two(nodes, docs);
    let walking = lead.saturating_mul(asking(number, lists, second, docs));
    let marks = number > 1 || nodes.iter().all(|node| node.is_of_lists());
    marks && marking(nodes).saturating_add(combining(number, 1, docs)) <= walking
}

/// Returns whether bits are the cheaper way to the near misses of some dimensions among the places of the base. Without
/// bits each dimension has a walk of its own in addition to that for the hits, for which all terms are looked up once
/// more. Its lead is the smallest of the base and of the other dimensions. For the dimension with the fewest places it
/// is the longest.
pub(crate) fn are_near_many(
    base: &[PlanNode<'_>],
    dims: &[PlanNode<'_>],
    lists: u64,
    docs: u32,
) -> bool {
    let docs = docs as u64;
    let others = dims.len() as u64;
    let number = others.saturating_add(base.len() as u64);
    let (lead, next) = fewest_two(base, docs);
    let (fewest, second) = fewest_two(dims, docs);
    let leads = lead
        .min(fewest)
        .saturating_mul(others)
        .saturating_add(lead.min(second));
    let then = lead.max(fewest).min(next).min(second);
    let walking = leads
        .saturating_mul(asking(number, lists, then, docs))
        .saturating_add(lists.saturating_mul(others).saturating_mul(LOOKED_UP));
    let marked = marking(base).saturating_add(marking(dims));
    marked.saturating_add(combining(number.saturating_add(2), others.saturating_add(1), docs))
        <= walking
}
