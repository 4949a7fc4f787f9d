ghost use Rattle.std.specs.Prelude.{◌≡◌, ◌≢◌, ◌+◌, ◌<◌, ◌≤◌, ◌^◌, ◌++◌, ◌∷◌, [], ℕ, List, Ok, Err, None, true, length};
ghost use Rattle.std.specs.Prelude.{map, IfOk, OnOk, IfErr};
ghost use Rattle.commit_file.specs.declared.fault.FileFault.TheVariants.{NoMemory as Memory};
ghost use Rattle.std.specs.Ordering.{is_lt};
ghost use Rattle.std.specs.List.{AllByRecursion, sum_by};
ghost use Rattle.facet_model.specs.Words.{word_cmp};
ghost use Rattle.facet_config.specs.Faults.{declare_fault};
ghost use Rattle.facet_config.specs.Declarations.{AreDimensions};
ghost use Rattle.commit_file.specs.LiveParts.{live_of};
ghost use Rattle.commit_file.specs.Commits.{index_listing, declaration, documents_listed, kept_of};
ghost use Rattle.commit_file.specs.Limits.{IsDocumentPart, IsLivePart, IsDeclaration, IsIndex};
ghost use Rattle.commit_file.specs.Spelling.{index_commit_bytes};
ghost use Rattle.commit_file.specs.Reading.{Reads, Gives, flags_of, flags_at, dim_at, declaration_at, declarations_at};
ghost use Rattle.commit_file.specs.Reading.{index_at, index_commit};

use crate::digest::{body, seal};
use crate::fault::FileFault;
use crate::kept::{Declaration, kept};
use crate::parts::{part_count, parts};
use crate::reading::head;
use crate::writing::{put_declarations, put_head, put_parts};
use facet_codec::{Cursor, put_u32, put_vint};
use facet_config::{DeclareFault, FacetsConfig};
use facet_model::DimFlags;
use facet_names::NoMemory;
use std::alloc::Global;
use std::hash::RandomState;
use std::marker::Model;

/// A segment of documents, as a commit names it.
#[derive(Clone, Copy, Debug, PartialEq, Eq)]
pub struct DocumentPart {
    /// The number of its file.
    pub number: u64,
    /// How many documents it has.
    pub documents: u32,
    /// The SHA-256 digest of its bytes.
    pub digest: [u8; 32],
}

/// A segment of documents, and which of its records are not live. Contracts see `dead` as a list.
#[derive(Drop)]
pub struct LivePart {
    /// The segment, as a commit names it.
    pub part: DocumentPart,
    /// The places of its records that are not live, counted from 0, rising. They are never all of its records.
    pub dead: Vec<u32>,
}

impl Model for LivePart {
    ghost use Rattle.commit_file.specs.LiveParts.{LivePart as Live};

    ghost Value = { Live };

    ghost view = { λ p. record { part = p.part; dead = p.dead.items } };
}

/// A commit of the index.
#[derive(Drop)]
pub struct IndexCommit {
    /// How many labels its documents need, with the root.
    pub needs: u32,
    /// The flags of the dimensions under which the documents were stored; dimensions without a flag are left out.
    pub kept: FacetsConfig,
    /// The segments of documents, in order.
    pub parts: Vec<LivePart>,
}

const MAGIC: u32 = 0x4649_434d;

// The version that is written. Version 1 is read too.
const VERSION: u32 = 2;

// Returns the flags in a number: 1 for hierarchical, 2 for multi-valued, 4 for a required count.
fn flags_of(n: u8) -> DimFlags
    ensures { result ≡ flags_of n }
{
    DimFlags {
        hierarchical: n % 2 == 1,
        multi_valued: n / 2 % 2 == 1,
        require_dim_count: n >= 4,
    }
}

// Reads flags in one byte. At least one is set.
#[tactic(auto, unfolding(crate::specs::Reading::flags_at))]
fn flags(cursor: &mut Cursor<'_>) -> Result<DimFlags, FileFault>
    ensures { Reads (λ x. x) result cursor.new (flags_at cursor.old) }
{
    let at = cursor.at() as u64;
    let n = cursor.u8()?;
    if n == 0 || n > 7 {
        return Err(FileFault::Malformed { at });
    }
    Ok(flags_of(n))
}

// Reads a dimension. It is greater than the one before it.
#[tactic(auto, unfolding(crate::specs::Reading::dim_at))]
fn dim<'a>(cursor: &mut Cursor<'a>, before: &str) -> Result<&'a str, FileFault>
    ensures read { Reads (λ x. x.now) result cursor.new (dim_at before.now cursor.old) }
    ensures short { IfOk result (λ x. length x.now ≤ 1024) }
    ensures after { IfOk result (λ x. is_lt (word_cmp before.now x.now) ≡ true) }
{
    cursor.bounds();
    let at = cursor.at() as u64;
    let dim = cursor.text(1024)?;
    if before >= dim {
        return Err(FileFault::Malformed { at });
    }
    Ok(dim)
}

// Reads a declaration. Its dimension is greater than the one before it.
#[tactic(auto, unfolding(crate::specs::Reading::declaration_at))]
fn declaration<'a>(cursor: &mut Cursor<'a>, before: &str) -> Result<Declaration<'a>, FileFault>
    ensures read { Reads declaration result cursor.new (declaration_at before.now cursor.old) }
    ensures short { IfOk result (λ d. length d.dim.now ≤ 1024) }
    ensures after { IfOk result (λ d. is_lt (word_cmp before.now d.dim.now) ≡ true) }
{
    let dim = dim(cursor, before)?;
    let flags = flags(cursor)?;
    Ok(Declaration { dim, flags })
}

// Keeps one more declaration.
fn keep(kept: &mut FacetsConfig, one: Declaration<'_>) -> Result<(), FileFault>
    requires { declare_fault kept.old one.dim.now ≡ None }
    ensures ok { OnOk result (kept.new ≡ kept.old ++ declaration one.entry ∷ []) }
    ensures err { IfErr result (λ e. e ≡ Memory) }
{
    match kept.declare(one.dim, one.flags) {
        Ok(()) => Ok(()),
        Err(DeclareFault::NoMemory) => Err(FileFault::NoMemory),
        Err(DeclareFault::BadName { .. } | DeclareFault::Twice) => unreachable!(),
    }
}

// Reads `n` declarations.
fn declarations(
    alloc: Global,
    keys: RandomState,
    cursor: &mut Cursor<'_>,
    n: u32,
) -> Result<FacetsConfig, FileFault>
    ensures { Reads (λ c. c) result cursor.new (declarations_at n cursor.old) }
{
    let mut kept = FacetsConfig::new(alloc, keys);
    let mut before = "";
    for _ in 0..n {
        let next = declaration(cursor, before)?;
        before = next.dim;
        keep(&mut kept, next)?;
    }
    Ok(kept)
}

// Reads what precedes the digest.
#[tactic(auto, unfolding(crate::specs::Reading::index_at))]
fn index(
    alloc: Global,
    keys: RandomState,
    wanted: u64,
    body: &[u8],
) -> Result<IndexCommit, FileFault>
    ensures { Gives index_listing result (index_at wanted body.now) }
{
    let mut cursor = Cursor::new(body);
    let version = head(&mut cursor, MAGIC, VERSION, wanted)?;
    let needs = cursor.u32()?;
    let n = cursor.vint()?;
    let kept = declarations(alloc, keys, &mut cursor, n)?;
    let n = part_count(&mut cursor, version)?;
    let parts = parts(alloc, &mut cursor, version, n)?;
    if cursor.rest() > 0 {
        return Err(FileFault::Malformed {
            at: cursor.at() as u64,
        });
    }
    Ok(IndexCommit { needs, kept, parts })
}

/// Reads a commit of the index from the bytes of the file with this number. It checks the digest first, and then reads
/// the rest from left to right. Look-ups of declared dimensions hash names with `keys`.
///
/// Costs: it reads the bytes twice. It allocates memory for the declarations and segments that it reads, and 4 bytes for
/// each record that is not live; no allocation depends on a number whose bytes are missing.
///
/// Errors: the first fault; out of memory.
#[tactic(auto, unfolding(crate::specs::Reading::index_commit))]
pub fn read_index_commit(
    alloc: Global,
    keys: RandomState,
    number: u64,
    bytes: &[u8],
) -> Result<IndexCommit, FileFault>
    ensures ok { IfOk result (λ c. index_commit number bytes.now ≡ Ok (index_listing c)) }
    ensures err { IfErr result (λ e. e ≢ Memory → index_commit number bytes.now ≡ Err e) }
    ensures limits { IfOk result (λ c. IsIndex (index_listing c)) }
{
    let body = body(bytes)?;
    index(alloc, keys, number, body)
}

#[tactic(auto, unfolding(crate::specs::Spelling::index_bytes))]
fn write(
    alloc: Global,
    number: u64,
    needs: u32,
    kept: &[Declaration<'_>],
    parts: &[LivePart],
) -> Result<Vec<u8>, facet_codec::NoMemory>
    requires kept { length kept.now < 2 ^ 32 }
    requires named { AreDimensions (map declaration kept.now) }
    requires parts { length parts.now < 2 ^ 32 }
    requires are { AllByRecursion IsLivePart parts.now }
    ensures bytes { IfOk result (λ v. v.items
        ≡ index_commit_bytes number (documents_listed needs (map declaration kept.now) parts.now)) }
    ensures declarations { IfOk result (λ _. AllByRecursion IsDeclaration (map declaration kept.now)) }
    ensures documents { IfOk result (λ _. AllByRecursion (λ p. IsDocumentPart p.part) parts.now) }
{
    let mut out = Vec::new(alloc);
    put_head(&mut out, MAGIC, VERSION, number)?;
    put_u32(&mut out, needs)?;
    put_vint(&mut out, kept.len() as u32)?;
    put_declarations(&mut out, kept)?;
    put_u32(&mut out, parts.len() as u32)?;
    put_parts(&mut out, parts)?;
    seal(&mut out)?;
    Ok(out)
}

/// Returns the bytes of a commit of the index with this number, in version 2. A declaration without a flag is left out.
///
/// Costs: it sorts the declarations, and visits each segment and each record that is not live once. It allocates memory
/// for the declarations and for the bytes: one bit per record in each segment that has records that are not live.
///
/// Errors: out of memory, also for 2^32 declarations or more.
pub fn write_index_commit(
    alloc: Global,
    number: u64,
    needs: u32,
    config: &FacetsConfig,
    parts: &[LivePart],
) -> Result<Vec<u8>, NoMemory>
    requires number { 0 < number }
    requires few { length parts.now < 2 ^ 32 }
    requires parts { AllByRecursion IsLivePart parts.now }
    requires some { AllByRecursion (λ p. 0 < live_of p) parts.now }
    requires live { sum_by live_of parts.now ≤ 1000000 }
    ensures bytes { IfOk result (λ v. v.items
        ≡ index_commit_bytes number (documents_listed needs (kept_of config.now) parts.now)) }
    ensures again { IfOk result (λ v. index_commit number v.items
        ≡ Ok (documents_listed needs (kept_of config.now) parts.now)) }
{
    let kept = kept(alloc, config)?;
    if kept.len() > u32::MAX as usize {
        return Err(NoMemory);
    }
    match write(alloc, number, needs, &kept, parts) {
        Ok(bytes) => Ok(bytes),
        Err(_) => Err(NoMemory),
    }
}
