//! Lists of segments: adding one, replacing several by one, sharing them, and counting their documents.
ghost use Rattle.std.specs.Prelude.{◌≡◌, ◌≢◌, ◌≤◌, ◌<◌, ◌+◌, ◌++◌, [], ◌∷◌, length, map, take, drop, replicate, IfErr};
ghost use Rattle.std.specs.Prelude.{IfOk, OnOk};
ghost use Rattle.std.specs.Arc.{arc_value};
ghost use Rattle.seg_grammar.specs.Spelling.{IsSegment, seg_bytes};
ghost use Rattle.seg_terms.specs.Entries.{segment_of};
ghost use Rattle.seg_documents.specs.Decoding.{flushed, records_in};
ghost use Rattle.index_state.specs.Kept.{IsFirst};

use arc_list::ArcList;
use facet_names::NoMemory;
use seg_file::{Entry, Segment};
use std::alloc::Global;
use std::hash::RandomState;
use std::sync::Arc;

/// Makes one segment of the entries, if there are any, after the other segments, and returns how many documents it has.
///
/// Errors: out of memory. Then nothing changes.
pub fn flush(
    alloc: Global,
    keys: RandomState,
    segments: &mut Vec<Arc<Segment>>,
    entries: &mut Vec<Entry>,
) -> Result<u32, NoMemory>
    requires { length entries.old.items ≤ 1000000 }
    ensures added { IfOk result (λ n. n ≡ length entries.old.items) }
    ensures segments { OnOk result (map arc_value segments.new.items
        ≡ flushed (map arc_value segments.old.items) entries.old.items) }
    ensures own { OnOk result (entries.old.items ≢ []
        → IsSegment (seg_bytes (segment_of entries.old.items)) (segment_of entries.old.items)) }
    ensures entries { OnOk result (entries.new.items ≡ []) }
    ensures same_segments { IfErr result (λ _. segments.new.items ≡ segments.old.items) }
    ensures same_entries { IfErr result (λ _. entries.new.items ≡ entries.old.items) }
{
    if entries.is_empty() {
        return Ok(0);
    }
    let segment = Segment::build(alloc, keys, entries)?;
    let docs = segment.docs();
    let segment = Arc::new(alloc, segment)?;
    segments.push(segment)?;
    entries.clear();
    Ok(docs)
}

/// Replaces `count` segments from `first` on by one. It allocates nothing, and moves the later segments once.
pub fn put_merged(
    segments: &mut Vec<Arc<Segment>>,
    first: usize,
    count: usize,
    merged: Arc<Segment>,
)
    requires some { 0 < count }
    requires range { first + count ≤ length segments.old.items }
    ensures { segments.new.items ≡ take first segments.old.items ++ merged ∷ drop (first + count) segments.old.items }
{
    segments[first] = merged;
    segments.drain(first + 1..first + count);
}

/// Returns the same segments, each with one owner more.
///
/// Errors: out of memory.
pub fn shared(alloc: Global, segments: &[Arc<Segment>]) -> Result<Vec<Arc<Segment>>, NoMemory>
    ensures { IfOk result (λ again. map arc_value again.items ≡ map arc_value segments.now) }
{
    let mut again = Vec::with_capacity(alloc, segments.len())?;
    for segment in segments {
        again.push(Arc::try_clone(segment)?)?;
    }
    Ok(again)
}

/// Returns all segments as a shared list. `shared` has the first of them, as the last such list did; it gets the others
/// too.
///
/// It allocates eight bytes per segment that was not in it, per 256 segments, and per segment after the last full
/// piece.
///
/// Errors: out of memory. Then `shared` may have got some of them, from the first on.
pub fn share_all(
    shared: &mut ArcList<Segment>,
    segments: &[Arc<Segment>],
) -> Result<ArcList<Segment>, NoMemory>
    requires { IsFirst shared.old (map arc_value segments.now) }
    ensures all { IfOk result (λ list. list ≡ map arc_value segments.now) }
    ensures begins { IsFirst shared.new (map arc_value segments.now) }
{
    let (_, new) = segments.split_at(shared.len());
    shared.extend_shared(new)?;
    let list = shared.share()?;
    Ok(list)
}

/// The segments from one on once more, and how many documents those before it have.
pub fn shared_from(
    alloc: Global,
    segments: &[Arc<Segment>],
    first: usize,
) -> Result<(Vec<Arc<Segment>>, u64), NoMemory>
    requires within { first ≤ length segments.now }
    requires few { length (records_in (map arc_value segments.now)) ≤ 1000000 }
    ensures range { IfOk result (λ r. map arc_value r.0.items ≡ drop first (map arc_value segments.now)) }
    ensures before { IfOk result (λ r. r.1 ≡ length (records_in (take first (map arc_value segments.now)))) }
{
    let (front, range) = segments.split_at(first);
    let before = count_documents(front) as u64;
    let again = shared(alloc, range)?;
    Ok((again, before))
}

/// Returns how many documents these segments have, without those that are not live.
pub fn count_documents(segments: &[Arc<Segment>]) -> usize
    requires { length (records_in (map arc_value segments.now)) ≤ 1000000 }
    ensures { result ≡ length (records_in (map arc_value segments.now)) }
{
    let mut count = 0;
    for segment in segments {
        count += segment.live() as usize;
    }
    count
}

/// Returns `n` zeros.
///
/// Errors: out of memory.
pub fn zeros(alloc: Global, n: usize) -> Result<Vec<u32>, NoMemory>
    ensures { IfOk result (λ v. v.items ≡ replicate n 0) }
{
    let mut zeros = Vec::with_capacity(alloc, n)?;
    for _ in 0..n {
        zeros.push(0)?;
    }
    Ok(zeros)
}
