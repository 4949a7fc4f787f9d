ghost use Rattle.std.specs.Prelude.{◌≡◌, ◌<◌, ◌≤◌, ◌++◌, map, length, IfOk, OnOk};
ghost use Rattle.std.specs.List.{AllByRecursion};
ghost use Rattle.facet_codec.specs.Spelling.{be32};
ghost use Rattle.facet_model.specs.Terms.{terms_of};
ghost use Rattle.seg_grammar.specs.Spelling.{IsSegment};
ghost use Rattle.seg_grammar.specs.Index.{IsIndexOf};
ghost use Rattle.seg_terms.specs.Places.{term_view, IsShortTerm};
ghost use Rattle.seg_terms.specs.Entries.{segment_of};

use crate::records::put_records;
use crate::sizes::segment_size;
use crate::terms::put_terms;
use facet_codec::put_u32;
use facet_names::NoMemory;
use seg_grammar::Index;
use seg_terms::{Entry, TermPlaces};
use std::alloc::Global;

/// The bytes of a segment, and where their parts begin.
#[derive(Drop)]
pub struct Written {
    /// The bytes.
    pub bytes: Vec<u8>,
    /// Where each record, its counted ordinals and each term begin.
    pub index: Index,
}

const MAGIC: u32 = 0x46534547;

/// Appends `FSEG`, the version and how many documents there are. Errors: out of memory.
pub fn put_head(out: &mut Vec<u8>, docs: u32) -> Result<(), facet_codec::NoMemory>
    ensures { OnOk result (out.new.items ≡ out.old.items ++ (be32 0x46534547 ++ (be32 1 ++ be32 docs))) }
{
    put_u32(out, MAGIC)?;
    put_u32(out, 1)?;
    put_u32(out, docs)
}

fn write(
    alloc: Global,
    entries: &[Entry],
    terms: &[TermPlaces],
) -> Result<Written, facet_codec::NoMemory>
    requires some { 0 < length entries.now }
    requires few { length entries.now ≤ 1000000 }
    requires terms { map term_view terms.now ≡ terms_of (map (λ e. e.doc) entries.now) }
    requires short { AllByRecursion (λ t. IsShortTerm t.0) (map term_view terms.now) }
    ensures segment { IfOk result (λ w. IsSegment w.bytes.items (segment_of entries.now)) }
    ensures index { IfOk result (λ w. IsIndexOf (segment_of entries.now) w.index) }
{
    if terms.len() > u32::MAX as usize {
        return Err(facet_codec::NoMemory);
    }
    let mut bytes = Vec::with_capacity(alloc, segment_size(entries, terms))?;
    put_head(&mut bytes, entries.len() as u32)?;
    let (records, counted) = put_records(alloc, &mut bytes, entries)?;
    put_u32(&mut bytes, terms.len() as u32)?;
    let terms = put_terms(alloc, &mut bytes, terms)?;
    Ok(Written {
        bytes,
        index: Index {
            records,
            counted,
            terms,
        },
    })
}

/// Writes the segment of documents and their terms. It visits both twice: first to compute how much memory to allocate,
/// and then to write.
///
/// Errors: out of memory, also for 2^32 terms or more.
pub fn write_segment(
    alloc: Global,
    entries: &[Entry],
    terms: &[TermPlaces],
) -> Result<Written, NoMemory>
    requires some { 0 < length entries.now }
    requires few { length entries.now ≤ 1000000 }
    requires terms { map term_view terms.now ≡ terms_of (map (λ e. e.doc) entries.now) }
    requires short { AllByRecursion (λ t. IsShortTerm t.0) (map term_view terms.now) }
    ensures segment { IfOk result (λ w. IsSegment w.bytes.items (segment_of entries.now)) }
    ensures index { IfOk result (λ w. IsIndexOf (segment_of entries.now) w.index) }
{
    match write(alloc, entries, terms) {
        Ok(written) => Ok(written),
        Err(_) => Err(NoMemory),
    }
}
