ghost use Rattle.std.specs.Prelude.{◌≡◌, Ok, None, IfOk, IfErr};
ghost use Rattle.facet_codec.specs.Lists.{list_at};
ghost use Rattle.facet_model.specs.Stored.{Records};
ghost use Rattle.seg_grammar.specs.Spelling.{IsSegment};
ghost use Rattle.seg_grammar.specs.Reading.{Fails, record_at, terms_at, segment_at};
ghost use Rattle.seg_grammar.specs.Index.{IsIndexOf, MarksRecords, MarksTerms};

use crate::fault::SegFault;
use crate::reading::{docs, head, record, term};
use facet_codec::Cursor;
use std::alloc::Global;

/// Where the parts of a segment begin, in bytes from 0. It takes 16 bytes per record and 8 per term.
#[derive(Drop)]
pub struct Index {
    /// Where each record begins.
    pub records: Vec<usize>,
    /// Where the counted ordinals of each record begin.
    pub counted: Vec<usize>,
    /// Where each term begins.
    pub terms: Vec<usize>,
}

/// Passes `n` records. Returns where each begins, and where its counted ordinals begin.
fn records(
    alloc: Global,
    cursor: &mut Cursor<'_>,
    n: u32,
) -> Result<(Vec<usize>, Vec<usize>), SegFault>
    ensures { MarksRecords result cursor.old cursor.new (list_at record_at n cursor.old) }
{
    cursor.bounds();
    let mut records = Vec::new(alloc);
    let mut counted = Vec::new(alloc);
    for _ in 0..n {
        let at = cursor.at();
        let counted_at = record(cursor)?;
        records.push(at)?;
        counted.push(counted_at)?;
    }
    Ok((records, counted))
}

/// Passes `n` terms. Returns where each begins.
fn terms(alloc: Global, cursor: &mut Cursor<'_>, n: u32, docs: u32) -> Result<Vec<usize>, SegFault>
    ensures { MarksTerms result cursor.old cursor.new (terms_at n None docs cursor.old) }
{
    cursor.bounds();
    let mut terms = Vec::new(alloc);
    let mut previous = None;
    for _ in 0..n {
        let at = cursor.at();
        previous = Some(term(cursor, previous, docs)?);
        terms.push(at)?;
    }
    Ok(terms)
}

/// Reads a segment in one pass from left to right, and checks that the bytes are exactly one. It stores only where the
/// parts begin.
///
/// Errors: the first fault; out of memory.
#[tactic(auto, unfolding(crate::specs::Reading::segment_at))]
pub fn read_index(alloc: Global, bytes: &[u8]) -> Result<Index, SegFault>
    ensures found { IfOk result (λ i. (r : Records) × (segment_at bytes.now ≡ Ok r) × IsSegment bytes.now r
        × IsIndexOf r i) }
    ensures fault { IfErr result (λ e. Fails e (segment_at bytes.now)) }
{
    let mut cursor = Cursor::new(bytes);
    head(&mut cursor)?;
    let docs = docs(&mut cursor)?;
    let (records, counted) = records(alloc, &mut cursor, docs)?;
    let n = cursor.u32()?;
    let terms = terms(alloc, &mut cursor, n, docs)?;
    if cursor.rest() > 0 {
        return Err(SegFault::Disorder {
            at: cursor.at() as u64,
        });
    }
    Ok(Index {
        records,
        counted,
        terms,
    })
}
