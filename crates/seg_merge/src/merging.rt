ghost use Rattle.std.specs.Prelude.{◌≡◌, ◌≤◌, ◌<◌, ◌+◌, ◌++◌, List, map, length, take, drop, IfOk};
ghost use Rattle.facet_codec.specs.Spelling.{be32};
ghost use Rattle.std.specs.Arc.{arc_value};
ghost use Rattle.std.specs.List.{AllByRecursion};
ghost use Rattle.facet_model.specs.Documents.{Doc};
ghost use Rattle.facet_model.specs.Stored.{live_docs};
ghost use Rattle.facet_model.specs.Terms.{terms_of};
ghost use Rattle.seg_grammar.specs.Spelling.{IsSegment, seg_bytes};
ghost use Rattle.seg_documents.specs.Decoding.{records_in};
ghost use Rattle.seg_merge.specs.Merged.{merged_of, HaveTerms, IsMergeOf, IsBuiltOfLive, IsOwn};

use crate::records::put_segments;
use crate::terms::put_merged_terms;
use facet_codec::put_u32;
use facet_names::NoMemory;
use seg_file::Segment;
use seg_writing::put_head;
use std::alloc::Global;
use std::hash::RandomState;
use std::sync::Arc;

// At least as many bytes as the merged segment takes.
fn most_bytes(segments: &[Arc<Segment>]) -> usize
    ensures { AllByRecursion IsOwn (map arc_value segments.now) }
{
    let mut size: usize = 16;
    for segment in segments {
        size = size.saturating_add(segment.bytes().len());
    }
    size
}

// How many live records there are.
fn count_live(segments: &[Arc<Segment>]) -> u32
    requires { length (records_in (map arc_value segments.now)) ≤ 1000000 }
    ensures { result ≡ length (records_in (map arc_value segments.now)) }
{
    let mut count = 0;
    for segment in segments {
        count += segment.live();
    }
    count
}

// Writes a number over four bytes, the highest first.
fn set_u32(bytes: &mut [u8], at: usize, number: u32)
    requires { at + 4 ≤ length bytes.old }
    ensures { bytes.new ≡ take at bytes.old ++ (be32 number ++ drop (at + 4) bytes.old) }
{
    bytes[at..at + 4].copy_from_slice(&number.to_be_bytes());
}

// The merged segment, as bytes. How many terms there are is known once they are written.
fn write(alloc: Global, segments: &[Arc<Segment>]) -> Result<Vec<u8>, facet_codec::NoMemory>
    requires some { 0 < length (records_in (map arc_value segments.now)) }
    requires few { length (records_in (map arc_value segments.now)) ≤ 1000000 }
    requires terms { (pieces : List (List Doc)) × HaveTerms (map arc_value segments.now) pieces }
    ensures { IfOk result (λ b. (pieces : List (List Doc)) → HaveTerms (map arc_value segments.now) pieces
        → IsSegment b.items (merged_of (map arc_value segments.now)
        (terms_of (live_docs (map arc_value segments.now) pieces)))) }
{
    let mut bytes = Vec::with_capacity(alloc, most_bytes(segments))?;
    put_head(&mut bytes, count_live(segments))?;
    put_segments(&mut bytes, segments)?;
    let count_at = bytes.len();
    put_u32(&mut bytes, 0)?;
    let count = put_merged_terms(alloc, &mut bytes, segments)?;
    set_u32(&mut bytes, count_at, count);
    Ok(bytes)
}

// The merged segment, as bytes.
fn merged_bytes(alloc: Global, segments: &[Arc<Segment>]) -> Result<Vec<u8>, NoMemory>
    requires some { 0 < length (records_in (map arc_value segments.now)) }
    requires few { length (records_in (map arc_value segments.now)) ≤ 1000000 }
    requires terms { (pieces : List (List Doc)) × HaveTerms (map arc_value segments.now) pieces }
    ensures { IfOk result (λ b. (pieces : List (List Doc)) → HaveTerms (map arc_value segments.now) pieces
        → IsSegment b.items (merged_of (map arc_value segments.now)
        (terms_of (live_docs (map arc_value segments.now) pieces)))) }
{
    match write(alloc, segments) {
        Ok(bytes) => Ok(bytes),
        Err(_) => Err(NoMemory),
    }
}

/// Returns one segment of the live records of these, in their order: the segment that [`Segment::build`] makes of all
/// their live entries, byte for byte.
///
/// There is at least one live record, there are at most 1,000,000, and each segment has the terms of its documents, as
/// segments that were built have.
///
/// Costs: no document is made. Records are copied as bytes, and the terms of all segments are visited once, in order of
/// their bytes, each compared with about twice the logarithm of the number of segments. It allocates the bytes of the
/// result, the places of one term and 36 bytes per segment. Last it reads the bytes once, as [`Segment::open`].
///
/// Errors: `NoMemory` if an allocation fails, and if there would be 2^32 terms or more, or 2^32 counted ordinals
/// without a map.
pub fn merge(
    alloc: Global,
    keys: RandomState,
    segments: &[Arc<Segment>],
) -> Result<Segment, NoMemory>
    requires some { 0 < length (records_in (map arc_value segments.now)) }
    requires few { length (records_in (map arc_value segments.now)) ≤ 1000000 }
    requires terms { (pieces : List (List Doc)) × HaveTerms (map arc_value segments.now) pieces }
    ensures merged { IfOk result (λ s. IsMergeOf (map arc_value segments.now) s) }
    ensures built { IfOk result (λ s. IsBuiltOfLive (map arc_value segments.now) s) }
    ensures own { IfOk result (λ s. IsSegment (seg_bytes s) s) }
{
    let _ = keys;
    let bytes = merged_bytes(alloc, segments)?;
    match Segment::open(alloc, bytes) {
        Ok(segment) => Ok(segment),
        // They are a segment, so only memory can be short.
        Err(_) => Err(NoMemory),
    }
}
