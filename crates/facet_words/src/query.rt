ghost use Rattle.std.specs.Prelude.{◌≡◌, ◌≤◌, ◌-◌, [], true, Option, SomeIff, IfOk, All, option_map, option_and_then};
ghost use Rattle.std.specs.Prelude.{map};
ghost use Rattle.std.specs.Option.{option_or};
ghost use Rattle.serde_json.specs.Data.{Data};
ghost use Rattle.serde_json.specs.View.{view};
ghost use Rattle.facet_model.specs.Queries.{QueryTree, term, queries, levels, nodes, list_nodes};
ghost use Rattle.facet_model.specs.QueryViews.{query_view};
ghost use Rattle.facet_model.specs.Words.{is_word};
ghost use Rattle.facet_words.specs.Queries.{all_query, term_query, all_words, words_query, three_of, bool_query};
ghost use Rattle.facet_words.specs.Queries.{query_within, query_of};
ghost use Rattle.facet_words.specs.Shapes.{all_some, key_or, list_of};

use crate::shape::{Shaped, keys_among, text_in};
use facet_model::{Query, Word, WordList, words};
use facet_names::NoMemory;
use serde_json::Value;
use std::alloc::Global;

#[tactic(auto, unfolding(crate::specs::Queries::all_query))]
fn all_in(value: &Value) -> Option<Query>
    ensures { option_map query_view result ≡ all_query (view value.now) }
{
    let every = value.get("all").and_then(Value::as_bool)?;
    if every && keys_among(value, &["all"]) {
        Some(Query::All)
    } else {
        None
    }
}

#[tactic(auto, unfolding(crate::specs::Queries::term_query))]
fn term_in(alloc: Global, value: &Value) -> Result<Option<Query>, NoMemory>
    ensures { IfOk result (λ o. option_map query_view o ≡ term_query (view value.now)) }
{
    let Some(text) = value.get("term").and_then(Value::as_str) else {
        return Ok(None);
    };
    let Some(word) = Word::new(alloc, text)? else {
        return Ok(None);
    };
    if keys_among(value, &["term"]) {
        Ok(Some(Query::Term(word)))
    } else {
        Ok(None)
    }
}

// A term for each word.
fn terms_of(alloc: Global, words: &WordList) -> Result<Vec<Query>, NoMemory>
    requires { All (λ w. is_word w ≡ true) words.now }
    ensures { IfOk result (λ v. map query_view v.items ≡ map term words.now) }
{
    let mut terms = Vec::with_capacity(alloc, words.len())?;
    for place in 0..words.len() {
        match Word::new(alloc, words.at(place))? {
            Some(word) => terms.push(Query::Term(word))?,
            None => unreachable!(),
        }
    }
    Ok(terms)
}

// The query that requires each of the words.
fn all_of(alloc: Global, words: &WordList) -> Result<Query, NoMemory>
    requires { All (λ w. is_word w ≡ true) words.now }
    ensures { IfOk result (λ q. query_view q ≡ all_words words.now) }
{
    let must = terms_of(alloc, words)?;
    if must.is_empty() {
        return Ok(Query::All);
    }
    Ok(Query::Bool {
        must,
        should: Vec::new(alloc),
        must_not: Vec::new(alloc),
    })
}

// How many levels the query of words has.
fn levels_of(words: &WordList) -> u32
    ensures { result ≡ levels (all_words words.now) }
{
    if words.len() == 0 { 1 } else { 2 }
}

#[tactic(auto, unfolding(crate::specs::Queries::words_query))]
fn words_in(alloc: Global, value: &Value, levels: u32) -> Result<Option<Query>, NoMemory>
    ensures { IfOk result (λ o. option_map query_view o ≡ words_query levels (view value.now)) }
{
    let Some(found) = value.get("words") else {
        return Ok(None);
    };
    let Some(text) = text_in(found, 0, 65536) else {
        return Ok(None);
    };
    if !keys_among(value, &["words"]) {
        return Ok(None);
    }
    let words = words(alloc, text)?;
    if levels_of(&words) > levels {
        return Ok(None);
    }
    Ok(Some(all_of(alloc, &words)?))
}

// A query whose value has no queries in it.
fn leaf_in(alloc: Global, value: &Value, levels: u32) -> Result<Option<Query>, NoMemory>
    ensures { IfOk result (λ o. option_map query_view o ≡ option_or (all_query (view value.now))
        (option_or (term_query (view value.now)) (words_query levels (view value.now)))) }
{
    if let Some(query) = all_in(value) {
        return Ok(Some(query));
    }
    match term_in(alloc, value)? {
        Some(query) => Ok(Some(query)),
        None => words_in(alloc, value, levels),
    }
}

// The lists of a boolean query, if neither the query nor the object of its lists has other keys.
fn lists_at(value: &Value) -> Option<&Value>
    ensures { (inner : Data → Option QueryTree)
        → option_and_then (three_of inner) (option_map (λ v. view v.now) result) ≡ bool_query inner (view value.now) }
{
    if !keys_among(value, &["bool"]) {
        return None;
    }
    let Some(lists) = value.get("bool") else {
        return None;
    };
    if keys_among(lists, &["must", "should", "must_not"]) {
        Some(lists)
    } else {
        None
    }
}

// The values of the list under a key, and none if there is no such key.
fn list_at<'a>(value: &'a Value, name: &str) -> Option<&'a [Value]>
    ensures { (shape : Data → Option QueryTree)
        → option_and_then (λ vs. all_some (map (λ v. shape (view v)) vs)) (option_map (λ s. s.now) result)
        ≡ key_or name.now [] (list_of shape) (view value.now) }
{
    match value.get(name) {
        Some(found) => {
            let list = found.as_array()?;
            Some(list.as_slice())
        }
        None => Some(&[]),
    }
}

// A query of at most so many levels.
#[cycle(query_reading)]
fn query_in(alloc: Global, value: &Value, levels: u32) -> Result<Option<Query>, NoMemory>
    ensures { IfOk result (λ o. option_map query_view o ≡ query_within levels (view value.now)) }
{
    if levels == 0 {
        return Ok(None);
    }
    if let Some(query) = leaf_in(alloc, value, levels)? {
        return Ok(Some(query));
    }
    match lists_at(value) {
        Some(lists) => lists_in(alloc, lists, levels - 1),
        None => Ok(None),
    }
}

#[cycle(query_reading)]
#[tactic(auto, unfolding(crate::specs::Queries::three_of))]
fn lists_in(alloc: Global, value: &Value, levels: u32) -> Result<Option<Query>, NoMemory>
    ensures { IfOk result (λ o. option_map query_view o ≡ three_of (query_within levels) (view value.now)) }
{
    let Some(must) = queries_at(alloc, value, "must", levels)? else {
        return Ok(None);
    };
    let Some(should) = queries_at(alloc, value, "should", levels)? else {
        return Ok(None);
    };
    let Some(must_not) = queries_at(alloc, value, "must_not", levels)? else {
        return Ok(None);
    };
    Ok(Some(Query::Bool {
        must,
        should,
        must_not,
    }))
}

// The queries under a key, each of at most so many levels.
#[cycle(query_reading)]
fn queries_at(
    alloc: Global,
    value: &Value,
    name: &str,
    levels: u32,
) -> Result<Option<Vec<Query>>, NoMemory>
    ensures { IfOk result (λ o. option_map (λ v. map query_view v.items) o
        ≡ key_or name.now [] (list_of (query_within levels)) (view value.now)) }
{
    match list_at(value, name) {
        Some(list) => each_query(alloc, list, levels),
        None => Ok(None),
    }
}

#[cycle(query_reading)]
fn each_query(alloc: Global, list: &[Value], levels: u32) -> Result<Option<Vec<Query>>, NoMemory>
    ensures { IfOk result (λ o. option_map (λ v. map query_view v.items) o
        ≡ all_some (map (λ v. query_within levels (view v)) list.now)) }
{
    let mut out = Vec::new(alloc);
    for value in list {
        let Some(query) = query_in(alloc, value, levels)? else {
            return Ok(None);
        };
        out.push(query)?;
    }
    Ok(Some(out))
}

// What a query leaves of so many nodes, or None if it has more.
#[cycle(node_count)]
fn left_by(query: &Query, left: u32) -> Option<u32>
    ensures { SomeIff result (nodes (query_view query.now) ≤ left) (left - nodes (query_view query.now)) }
{
    let left = left.checked_sub(1)?;
    match query {
        Query::All => Some(left),
        Query::Term(_) => Some(left),
        Query::Bool {
            must,
            should,
            must_not,
        } => {
            let left = left_by_all(must, left)?;
            let left = left_by_all(should, left)?;
            left_by_all(must_not, left)
        }
    }
}

#[cycle(node_count)]
fn left_by_all(list: &[Query], left: u32) -> Option<u32>
    ensures { SomeIff result (list_nodes (queries (map query_view list.now)) ≤ left)
        (left - list_nodes (queries (map query_view list.now))) }
{
    let mut left = left;
    for query in list {
        left = left_by(query, left)?;
    }
    Some(left)
}

#[tactic(auto, unfolding(crate::specs::Queries::query_of))]
fn limited_query_in(alloc: Global, value: &Value) -> Result<Option<Query>, NoMemory>
    ensures { IfOk result (λ o. option_map query_view o ≡ query_of (view value.now)) }
{
    let Some(query) = query_in(alloc, value, 32)? else {
        return Ok(None);
    };
    match left_by(&query, 256) {
        Some(_) => Ok(Some(query)),
        None => Ok(None),
    }
}

impl Shaped for Query {
    ghost use Rattle.facet_model.specs.Queries.{QueryTree};
    ghost use Rattle.facet_model.specs.QueryViews.{query_view};
    ghost use Rattle.facet_words.specs.Queries.{query_of};

    ghost Plain = { QueryTree };

    ghost plain = { query_view };

    ghost shape = { query_of };

    fn read(alloc: Global, value: &Value) -> Result<Option<Query>, NoMemory> {
        limited_query_in(alloc, value)
    }
}
