ghost use Rattle.std.specs.Prelude.{◌≡◌, ◌≤◌, ◌<◌, Ok, All, IfOk, IfErr, length, map};
ghost use Rattle.facet_names.specs.Labels.{IsLabelList};
ghost use Rattle.facet_model.specs.Stored.{IsSegmentOf};
ghost use Rattle.seg_grammar.specs.Spelling.{IsSegment, seg_bytes};
ghost use Rattle.seg_decoding.specs.Answers.{Fails, Gives, IsLeaf};
ghost use Rattle.seg_documents.specs.Decoding.{doc_in};
ghost use Rattle.seg_decoding.specs.Opening.{head_fits, opened, stored_segment};
ghost use Rattle.seg_decoding.specs.Reading.{IsStored, WhereRead};

use crate::difference::first_difference;
use crate::entries::entries_of;
use crate::fault::StoredFault;
use crate::unlike::Unlike;
use crate::verifying::verify;
use facet_codec::Cursor;
use facet_config::FacetsConfig;
use seg_file::Segment;
use std::alloc::Global;
use std::hash::RandomState;
use taxo_list::{Labelled, Taxonomy};

// Checks that the first bytes are those of a segment with this number of documents.
fn check_head(bytes: &[u8], documents: u32) -> Result<(), StoredFault>
    ensures { Gives (λ _. tt) result (head_fits documents bytes.now) }
{
    let mut cursor = Cursor::new(bytes);
    match cursor.u32() {
        Ok(magic) => {
            if magic != 0x4653_4547 {
                return Err(StoredFault::Malformed { at: 0 });
            }
        }
        Err(_) => return Err(StoredFault::Malformed { at: 0 }),
    }
    let version = cursor.u32()?;
    if version != 1 {
        return Err(StoredFault::Malformed { at: 4 });
    }
    let number = cursor.u32()?;
    if number != documents {
        return Err(StoredFault::Malformed { at: 8 });
    }
    Ok(())
}

// Opens the segment in the bytes, if it has this number of documents.
#[tactic(auto, unfolding(crate::specs::Opening::opened))]
fn opened(alloc: Global, documents: u32, bytes: Vec<u8>) -> Result<Segment, StoredFault>
    ensures read { Gives (λ s. s) result (opened documents bytes.items) }
    ensures found { IfOk result (λ s. IsSegment bytes.items s) }
{
    check_head(&bytes, documents)?;
    let segment = Segment::open(alloc, bytes)?;
    Ok(segment)
}

// Makes the documents and the segment again, to find the first byte that differs.
fn compare_anew(
    alloc: Global,
    keys: RandomState,
    config: &FacetsConfig,
    labels: &Taxonomy,
    needs: u32,
    segment: &Segment,
) -> Result<(), StoredFault>
    requires list { IsLabelList labels.now }
    requires needs { needs ≤ length labels.now }
    requires some { 0 < length segment.now.records }
    requires few { length segment.now.records ≤ 1000000 }
    ensures ok { IfOk result (λ _. WhereRead segment.now
        (λ documents bytes. IsStored config.now labels.now needs documents bytes segment.now)) }
    ensures err { IfErr result (λ e. WhereRead segment.now (λ documents bytes. Fails e
        (stored_segment config.now labels.now needs documents bytes))) }
{
    let entries = entries_of(alloc, config, labels, needs, segment)?;
    let rebuilt = Segment::build(alloc, keys, &entries)?;
    match first_difference(segment.bytes(), rebuilt.bytes()) {
        Some(at) => Err(StoredFault::Malformed { at }),
        None => Ok(()),
    }
}

// Checks that the bytes of the segment are those that are written for its documents.
fn check_documents(
    alloc: Global,
    keys: RandomState,
    config: &FacetsConfig,
    labels: &Taxonomy,
    needs: u32,
    segment: &Segment,
) -> Result<(), StoredFault>
    requires needs { needs ≤ length labels.now }
    requires some { 0 < length segment.now.records }
    requires few { length segment.now.records ≤ 1000000 }
    ensures ok { IfOk result (λ _. WhereRead segment.now
        (λ documents bytes. IsStored config.now labels.now needs documents bytes segment.now)) }
    ensures err { IfErr result (λ e. WhereRead segment.now (λ documents bytes. Fails e
        (stored_segment config.now labels.now needs documents bytes))) }
{
    match verify(alloc, config, labels, needs, segment) {
        Ok(()) => Ok(()),
        Err(Unlike::NoMemory) => Err(StoredFault::NoMemory),
        Err(Unlike::Differs) => compare_anew(alloc, keys, config, labels, needs, segment),
    }
}

/// Opens a stored segment of 1 to 1,000,000 documents, and checks it. It needs the first `needs` labels of the list.
/// The bytes have to be exactly those that are written for its documents: the leaves are ordinals of labels, the config
/// accepts each document, and the counted ordinals and the terms are those of the documents. `keys` are hash keys; no
/// result depends on them.
///
/// Costs: it reads a valid segment once, and makes no document. While it works that takes 8 bytes for each label that
/// there is, 16 for each term, and about 150 for each label that a document has. It keeps the bytes, and what
/// `Segment::open` keeps with them.
///
/// Errors: the place of the first fault. The number of documents is checked before everything after it, then the form
/// of the bytes, then each document: a leaf that is not a label is reported where it is, a rejected document where it
/// begins. At the end every byte is compared. To find the fault the documents and the segment are made again, in the
/// time and memory of adding them all. Out of memory, also for 2^32 terms or more.
pub fn open_stored(
    alloc: Global,
    keys: RandomState,
    config: &FacetsConfig,
    labels: &Taxonomy,
    needs: u32,
    documents: u32,
    bytes: Vec<u8>,
) -> Result<Segment, StoredFault>
    requires { needs ≤ length labels.now }
    ensures ok { IfOk result (λ s. stored_segment config.now labels.now needs documents bytes.items ≡ Ok s) }
    ensures err { IfErr result (λ e. Fails e (stored_segment config.now labels.now needs documents bytes.items)) }
    ensures bytes { IfOk result (λ s. seg_bytes s ≡ bytes.items) }
    ensures decodes { IfOk result (λ s. IsSegmentOf labels.now config.now s (map (doc_in labels.now) s.records)) }
    ensures leaves { IfOk result (λ s. All (λ r. All (IsLeaf needs) r.leaves) s.records) }
    ensures number { IfOk result (λ s. length s.records ≡ documents) }
    ensures some { IfOk result (λ s. 0 < length s.records) }
    ensures few { IfOk result (λ s. length s.records ≤ 1000000) }
    ensures own { IfOk result (λ s. IsSegment (seg_bytes s) s) }
{
    let segment = opened(alloc, documents, bytes)?;
    check_documents(alloc, keys, config, labels, needs, &segment)?;
    Ok(segment)
}
