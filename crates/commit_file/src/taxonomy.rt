ghost use Rattle.std.specs.Prelude.{◌≡◌, ◌≢◌, ◌<◌, ◌≤◌, ◌^◌, ℕ, Ok, Err, length, IfOk, IfErr};
ghost use Rattle.commit_file.specs.declared.fault.FileFault.TheVariants.{NoMemory as Memory};
ghost use Rattle.std.specs.List.{AllByRecursion};
ghost use Rattle.commit_file.specs.Commits.{taxonomy_listing, labels_listed, AreInOrder};
ghost use Rattle.commit_file.specs.Limits.{IsLabelPart};
ghost use Rattle.commit_file.specs.Spelling.{taxonomy_commit_bytes};
ghost use Rattle.commit_file.specs.Reading.{Reads, Gives, labels_at, first_at, count_at, label_part_at, label_parts_at};
ghost use Rattle.commit_file.specs.Reading.{taxonomy_at, taxonomy_commit};

use crate::digest::{body, seal};
use crate::fault::FileFault;
use crate::reading::{digest, head, some};
use crate::writing::{put_head, put_labels};
use facet_codec::{Cursor, put_u32};
use facet_names::NoMemory;
use std::alloc::Global;

/// A segment of labels, as a commit names it.
#[derive(Clone, Copy, Debug, PartialEq, Eq)]
pub struct LabelPart {
    /// The number of its file.
    pub number: u64,
    /// The ordinal of its first label.
    pub first: u32,
    /// How many labels it has.
    pub count: u32,
    /// The SHA-256 digest of its bytes.
    pub digest: [u8; 32],
}

/// A commit of the taxonomy.
#[derive(Drop)]
pub struct TaxonomyCommit {
    /// How many labels there are, with the root; at most 1,000,000 are read.
    pub labels: u32,
    /// The segments that hold all labels except the root, in order.
    pub parts: Vec<LabelPart>,
}

const MAGIC: u32 = 0x4654_434d;

const VERSION: u32 = 1;

// Reads how many labels there are.
#[tactic(auto, unfolding(crate::specs::Reading::labels_at))]
fn labels(cursor: &mut Cursor<'_>) -> Result<u32, FileFault>
    ensures { Reads (λ x. x) result cursor.new (labels_at cursor.old) }
{
    let at = cursor.at() as u64;
    let n = cursor.u32()?;
    if n > 1_000_000 {
        return Err(FileFault::Malformed { at });
    }
    Ok(n)
}

// Reads the ordinal of a segment's first label, which has to be `start`.
#[tactic(auto, unfolding(crate::specs::Reading::first_at))]
fn first(cursor: &mut Cursor<'_>, start: u64) -> Result<u32, FileFault>
    ensures { Reads (λ x. x) result cursor.new (first_at start cursor.old) }
{
    let at = cursor.at() as u64;
    let n = cursor.u32()?;
    if n as u64 != start {
        return Err(FileFault::Malformed { at });
    }
    Ok(n)
}

// Reads how many labels a segment has. The last segment ends with the last label.
#[tactic(auto, unfolding(crate::specs::Reading::count_at))]
fn count(cursor: &mut Cursor<'_>, labels: u32, behind: u32, start: u32) -> Result<u32, FileFault>
    ensures { Reads (λ x. x) result cursor.new (count_at labels behind start cursor.old) }
{
    let at = cursor.at() as u64;
    let n = cursor.u32()?;
    if behind == 0 && start as u64 + n as u64 != labels as u64 {
        return Err(FileFault::Malformed { at });
    }
    Ok(n)
}

// Reads a segment of labels that precedes `behind` other segments.
#[tactic(auto, unfolding(crate::specs::Reading::label_part_at))]
fn label_part(
    cursor: &mut Cursor<'_>,
    labels: u32,
    behind: u32,
    start: u64,
) -> Result<LabelPart, FileFault>
    ensures { Reads (λ x. x) result cursor.new (label_part_at labels behind start cursor.old) }
{
    let number = cursor.u64()?;
    let first = first(cursor, start)?;
    let count = count(cursor, labels, behind, first)?;
    let digest = digest(cursor)?;
    Ok(LabelPart {
        number,
        first,
        count,
        digest,
    })
}

// Reads `n` segments of labels.
fn label_parts(
    alloc: Global,
    cursor: &mut Cursor<'_>,
    labels: u32,
    n: u32,
) -> Result<Vec<LabelPart>, FileFault>
    ensures { Reads (λ v. v.items) result cursor.new (label_parts_at labels n cursor.old) }
{
    let mut parts = Vec::new(alloc);
    let mut start: u64 = 1;
    for at in 0..n {
        let part = label_part(cursor, labels, n - (at + 1), start)?;
        start = part.first as u64 + part.count as u64;
        parts.push(part)?;
    }
    Ok(parts)
}

// Reads what precedes the digest.
#[tactic(auto, unfolding(crate::specs::Reading::taxonomy_at))]
fn taxonomy(alloc: Global, wanted: u64, body: &[u8]) -> Result<TaxonomyCommit, FileFault>
    ensures { Gives taxonomy_listing result (taxonomy_at wanted body.now) }
{
    let mut cursor = Cursor::new(body);
    head(&mut cursor, MAGIC, VERSION, wanted)?;
    let labels = labels(&mut cursor)?;
    let n = some(&mut cursor)?;
    let parts = label_parts(alloc, &mut cursor, labels, n)?;
    if cursor.rest() > 0 {
        return Err(FileFault::Malformed {
            at: cursor.at() as u64,
        });
    }
    Ok(TaxonomyCommit { labels, parts })
}

/// Reads a commit of the taxonomy from the bytes of the file with this number. It checks the digest first, and then
/// reads the rest from left to right.
///
/// Costs: it reads the bytes twice, and allocates memory for the segments that it reads.
///
/// Errors: the first fault; out of memory.
#[tactic(auto, unfolding(crate::specs::Reading::taxonomy_commit))]
pub fn read_taxonomy_commit(
    alloc: Global,
    number: u64,
    bytes: &[u8],
) -> Result<TaxonomyCommit, FileFault>
    ensures ok { IfOk result (λ c. taxonomy_commit number bytes.now ≡ Ok (taxonomy_listing c)) }
    ensures err { IfErr result (λ e. e ≢ Memory → taxonomy_commit number bytes.now ≡ Err e) }
{
    let body = body(bytes)?;
    taxonomy(alloc, number, body)
}

#[tactic(auto, unfolding(crate::specs::Spelling::taxonomy_bytes))]
fn write(
    alloc: Global,
    number: u64,
    labels: u32,
    parts: &[LabelPart],
) -> Result<Vec<u8>, facet_codec::NoMemory>
    requires { length parts.now < 2 ^ 32 }
    ensures bytes { IfOk result (λ v. v.items ≡ taxonomy_commit_bytes number (labels_listed labels parts.now)) }
    ensures fit { IfOk result (λ _. AllByRecursion IsLabelPart parts.now) }
{
    let mut out = Vec::new(alloc);
    put_head(&mut out, MAGIC, VERSION, number)?;
    put_u32(&mut out, labels)?;
    put_u32(&mut out, parts.len() as u32)?;
    put_labels(&mut out, parts)?;
    seal(&mut out)?;
    Ok(out)
}

/// Returns the bytes of a commit of the taxonomy with this number. It visits each segment once, and allocates the
/// bytes: 48 for each segment, and 56 more.
///
/// Errors: out of memory.
pub fn write_taxonomy_commit(
    alloc: Global,
    number: u64,
    labels: u32,
    parts: &[LabelPart],
) -> Result<Vec<u8>, NoMemory>
    requires number { 0 < number }
    requires labels { labels ≤ 1000000 }
    requires some { 0 < length parts.now }
    requires few { length parts.now < 2 ^ 32 }
    requires order { AreInOrder labels 1 parts.now }
    ensures bytes { IfOk result (λ v. v.items ≡ taxonomy_commit_bytes number (labels_listed labels parts.now)) }
    ensures again { IfOk result (λ v. taxonomy_commit number v.items ≡ Ok (labels_listed labels parts.now)) }
{
    match write(alloc, number, labels, parts) {
        Ok(bytes) => Ok(bytes),
        Err(_) => Err(NoMemory),
    }
}
