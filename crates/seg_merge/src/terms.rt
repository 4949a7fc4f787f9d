ghost use Rattle.std.specs.Prelude.{◌≡◌, ◌≤◌, ◌<◌, ◌+◌, ◌^◌, ◌++◌, ℕ, true, List, [], map, length, IfOk, IfSome, OnOk};
ghost use Rattle.std.specs.Arc.{arc_value};
ghost use Rattle.std.specs.List.{AllByRecursion};
ghost use Rattle.facet_codec.specs.Laws.{IsBelow};
ghost use Rattle.facet_model.specs.Stored.{Records};
ghost use Rattle.seg_grammar.specs.Spelling.{places_bytes};
ghost use Rattle.seg_terms.specs.Noting.{Table};
ghost use Rattle.seg_terms.specs.Places.{IsShortTerm};
ghost use Rattle.seg_documents.specs.Decoding.{records_in};
ghost use Rattle.seg_merge.specs.Moved.{moved};
ghost use Rattle.seg_merge.specs.Merged.{IsOwn};
ghost use Rattle.seg_merge.specs.Walk.{bases_from, with_term, AreWritten, ComeBefore, IsNextTerm, AreAllPassed, IsWalk};
ghost use Rattle.seg_merge.specs.Walk.{AreMerged};

use crate::heads::{Head, sink};
use facet_codec::{NoMemory, put_text, put_u32};
use seg_file::Segment;
use seg_postings::Postings;
use std::alloc::Global;
use std::sync::Arc;

// Appends the places that live records of a segment have in the merged one, where `base` live records come before the
// segment's.
fn put_moved(
    list: &mut Vec<u32>,
    segment: &Segment,
    places: &Postings<'_>,
    base: u32,
) -> Result<(), NoMemory>
    requires base { base ≤ 1000000 }
    requires few { length segment.now.records ≤ 1000000 }
    requires below { AllByRecursion (IsBelow (length segment.now.records)) places.now }
    ensures { OnOk result (list.new.items ≡ list.old.items ++ moved base segment.now.dead places.now) }
{
    for at in 0..places.len() {
        let place = places.at(at);
        if segment.is_live(place) {
            list.push(base + segment.rank(place))?;
        }
    }
    Ok(())
}

// Appends places after their number.
fn put_places(out: &mut Vec<u8>, places: &[u32]) -> Result<(), NoMemory>
    requires { length places.now < 2 ^ 32 }
    ensures { OnOk result (out.new.items ≡ out.old.items ++ places_bytes places.now) }
{
    put_u32(out, places.len() as u32)?;
    for place in places {
        put_u32(out, *place)?;
    }
    Ok(())
}

// Appends a term with its places, if it has any, and counts it.
fn put_term(out: &mut Vec<u8>, count: &mut u32, text: &str, places: &[u32]) -> Result<(), NoMemory>
    requires { IsShortTerm text.now }
    ensures { OnOk result ((start : List ℕ) (terms : Table) → AreWritten start out.old.items count.old terms
        → ComeBefore terms text.now
        → AreWritten start out.new.items count.new (with_term terms text.now places.now)) }
{
    if places.is_empty() {
        return Ok(());
    }
    if *count == u32::MAX || places.len() > u32::MAX as usize {
        return Err(NoMemory);
    }
    put_text(out, text)?;
    put_places(out, places)?;
    *count += 1;
    Ok(())
}

// Goes on from a text to a term of a segment: if that has another text, the places of the text are complete, and are
// written. It answers that there is no memory where the term comes earlier than the text, or its segment earlier than
// number `from`.
fn turn(
    out: &mut Vec<u8>,
    count: &mut u32,
    places: &mut Vec<u32>,
    text: &str,
    from: usize,
    term: &str,
    segment: usize,
) -> Result<(), NoMemory>
    requires { IsShortTerm text.now }
    ensures { OnOk result ((ss : List Records) (start passed : List ℕ)
        → IsWalk ss start out.old.items count.old passed text.now from places.old.items
        → IsWalk ss start out.new.items count.new passed term.now segment places.new.items) }
{
    let order = text.cmp(term);
    if order.is_lt() {
        put_term(out, count, text, places)?;
        places.clear();
        return Ok(());
    }
    if order.is_gt() || segment < from {
        return Err(NoMemory);
    }
    Ok(())
}

// How many live records come before those of each segment.
fn bases_of(alloc: Global, segments: &[Arc<Segment>]) -> Result<Vec<u32>, NoMemory>
    requires { length (records_in (map arc_value segments.now)) ≤ 1000000 }
    ensures { IfOk result (λ v. v.items ≡ bases_from 0 (map arc_value segments.now)) }
{
    let mut bases = Vec::with_capacity(alloc, segments.len())?;
    let mut base = 0;
    for segment in segments {
        bases.push(base)?;
        base += segment.live();
    }
    Ok(bases)
}

// The text of a term, or none after the last one.
fn text_at(segment: &Segment, at: usize) -> Option<&str> {
    if at < segment.terms() {
        Some(segment.term_text(at))
    } else {
        None
    }
}

// The first terms of the segments, as a heap.
fn first_heads(alloc: Global, segments: &[Arc<Segment>]) -> Result<Vec<Head<'_>>, NoMemory> {
    let mut heads = Vec::with_capacity(alloc, segments.len())?;
    for segment in 0..segments.len() {
        heads.push(Head {
            text: text_at(&segments[segment], 0),
            segment,
        })?;
    }
    for behind in 0..heads.len() {
        let from = heads.len() - 1 - behind;
        sink(&mut heads, from);
    }
    Ok(heads)
}

// The next term of all: the number of its segment, and its number there.
fn next_term(
    heads: &[Head<'_>],
    passed: &[usize],
    segments: &[Arc<Segment>],
) -> Option<(usize, usize)>
    requires { length passed.now ≡ length segments.now }
    ensures { IfSome result (λ t. IsNextTerm (map arc_value segments.now) passed.now t.0 t.1) }
{
    let first = heads.first()?;
    first.text?;
    let number = first.segment;
    if number >= segments.len() {
        return None;
    }
    let at = passed[number];
    if at >= segments[number].terms() {
        return None;
    }
    Some((number, at))
}

// Whether all terms of all segments were passed.
fn is_end(passed: &[usize], segments: &[Arc<Segment>]) -> bool
    requires { length passed.now ≡ length segments.now }
    ensures { result ≡ true → AreAllPassed (map arc_value segments.now) passed.now }
{
    for number in 0..segments.len() {
        if passed[number] < segments[number].terms() {
            return false;
        }
    }
    true
}

// Gives the first head its next text, and moves it to its place.
fn step<'s>(heads: &mut [Head<'s>], text: Option<&'s str>) {
    if heads.is_empty() {
        return;
    }
    heads[0].text = text;
    sink(heads, 0);
}

/// Appends the terms of the live records, rising by their bytes, each once, with the places of the records one segment
/// after the other, and returns how many there are. It goes over the terms of all segments together, and compares each
/// with about twice the logarithm of the number of segments. It takes memory for the places of one term, and 36 bytes a
/// segment.
pub(crate) fn put_merged_terms(
    alloc: Global,
    out: &mut Vec<u8>,
    segments: &[Arc<Segment>],
) -> Result<u32, NoMemory>
    requires few { length (records_in (map arc_value segments.now)) ≤ 1000000 }
    requires own { AllByRecursion IsOwn (map arc_value segments.now) }
    ensures { IfOk result (λ n. AreMerged (map arc_value segments.now) out.old.items out.new.items n) }
{
    let bases = bases_of(alloc, segments)?;
    let mut passed = vec![in alloc; 0usize; segments.len()]?;
    let mut heads = first_heads(alloc, segments)?;
    let mut places = Vec::new(alloc);
    let mut count = 0;
    let mut text = "";
    let mut from = 0;
    for _ in 0..u64::MAX {
        let Some((number, at)) = next_term(&heads, &passed, segments) else {
            break;
        };
        let segment = &segments[number];
        let term = segment.term_text(at);
        turn(out, &mut count, &mut places, text, from, term, number)?;
        put_moved(&mut places, segment, &segment.places(at), bases[number])?;
        text = term;
        from = number + 1;
        passed[number] = at + 1;
        step(&mut heads, text_at(segment, at + 1));
    }
    put_term(out, &mut count, text, &places)?;
    // The heads are in order, so that the walk ends after all terms.
    if !is_end(&passed, segments) {
        return Err(NoMemory);
    }
    Ok(count)
}
