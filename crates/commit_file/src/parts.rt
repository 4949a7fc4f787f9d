ghost use Rattle.std.specs.Prelude.{◌≡◌, ◌<◌, ◌≤◌, ◌+◌, ◌-◌, IfOk, length};
ghost use Rattle.commit_file.specs.LiveParts.{live_of, with_live};
ghost use Rattle.commit_file.specs.Reading.{Reads, part_count_at, documents_at, bits_at, live_at, live_records_at};
ghost use Rattle.commit_file.specs.Reading.{dead_at, part_at, parts_at};

use crate::bits::{bits_len, dead_in, none_past};
use crate::fault::FileFault;
use crate::index::{DocumentPart, LivePart};
use crate::reading::{digest, some};
use facet_codec::Cursor;
use std::alloc::Global;

/// Returns how many records of a segment are live.
pub(crate) fn live_of(part: &LivePart) -> u32
    ensures { result ≡ live_of part.now }
{
    (part.part.documents as u64).saturating_sub(part.dead.len() as u64) as u32
}

/// Reads how many segments of documents there are. In version 1 there is at least one.
#[tactic(auto, unfolding(crate::specs::Reading::part_count_at))]
pub(crate) fn part_count(cursor: &mut Cursor<'_>, version: u32) -> Result<u32, FileFault>
    ensures { Reads (λ x. x) result cursor.new (part_count_at version cursor.old) }
{
    if version == 1 {
        return some(cursor);
    }
    let n = cursor.u32()?;
    Ok(n)
}

// Reads how many documents a segment has. In version 1 there are at most 1,000,000 with the `before` ones of others.
#[tactic(auto, unfolding(crate::specs::Reading::documents_at))]
fn documents(cursor: &mut Cursor<'_>, version: u32, before: u64) -> Result<u32, FileFault>
    requires { before ≤ 1000000 }
    ensures read { Reads (λ x. x) result cursor.new (documents_at version before cursor.old) }
    ensures few { IfOk result (λ n. version ≡ 1 → before + n ≤ 1000000) }
{
    let at = cursor.at() as u64;
    let n = cursor.u32()?;
    if version == 1 && before + n as u64 > 1_000_000 {
        return Err(FileFault::Malformed { at });
    }
    Ok(n)
}

// Reads how many of so many records are live, after `before` live records of other segments.
#[tactic(auto, unfolding(crate::specs::Reading::live_at))]
fn live(cursor: &mut Cursor<'_>, documents: u32, before: u64) -> Result<u32, FileFault>
    requires { before ≤ 1000000 }
    ensures read { Reads (λ x. x) result cursor.new (live_at documents before cursor.old) }
    ensures few { IfOk result (λ n. before + n ≤ 1000000) }
{
    let at = cursor.at() as u64;
    let n = cursor.u32()?;
    if n == 0 || n > documents || before + n as u64 > 1_000_000 {
        return Err(FileFault::Malformed { at });
    }
    Ok(n)
}

// Reads the bits of so many records, of which so many are live. Returns the places of those that are not.
#[tactic(auto, unfolding(crate::specs::Reading::bits_at))]
fn bits(
    alloc: Global,
    cursor: &mut Cursor<'_>,
    documents: u32,
    live: u32,
) -> Result<Vec<u32>, FileFault>
    ensures read { Reads (λ v. v.items) result cursor.new (bits_at documents live cursor.old) }
    ensures many { IfOk result (λ v. length v.items + live ≡ documents) }
{
    let at = cursor.at() as u64;
    let bits = cursor.bytes(bits_len(documents))?;
    let dead = dead_in(alloc, documents, bits)?;
    if dead.len() as u64 + live as u64 != documents as u64 || !none_past(documents, bits) {
        return Err(FileFault::Malformed { at });
    }
    Ok(dead)
}

// Reads how many records are live, and the bits if these are not all.
#[tactic(auto, unfolding(crate::specs::Reading::live_records_at))]
fn live_records(
    alloc: Global,
    cursor: &mut Cursor<'_>,
    documents: u32,
    before: u64,
) -> Result<Vec<u32>, FileFault>
    requires { before ≤ 1000000 }
    ensures read { Reads (λ v. v.items) result cursor.new (live_records_at documents before cursor.old) }
    ensures few { IfOk result (λ v. before + (documents - length v.items) ≤ 1000000) }
{
    let live = live(cursor, documents, before)?;
    if live == documents {
        return Ok(Vec::new(alloc));
    }
    let dead = bits(alloc, cursor, documents, live)?;
    Ok(dead)
}

// Reads which records of a segment are not live. In version 1 there are none.
#[tactic(auto, unfolding(crate::specs::Reading::dead_at))]
fn dead(
    alloc: Global,
    cursor: &mut Cursor<'_>,
    version: u32,
    documents: u32,
    before: u64,
) -> Result<Vec<u32>, FileFault>
    requires before { before ≤ 1000000 }
    requires few { version ≡ 1 → before + documents ≤ 1000000 }
    ensures read { Reads (λ v. v.items) result cursor.new (dead_at version documents before cursor.old) }
    ensures few { IfOk result (λ v. before + (documents - length v.items) ≤ 1000000) }
{
    if version == 1 {
        return Ok(Vec::new(alloc));
    }
    live_records(alloc, cursor, documents, before)
}

// Reads a segment of documents, after `before` live documents of other segments.
#[tactic(auto, unfolding(crate::specs::Reading::part_at))]
fn part(
    alloc: Global,
    cursor: &mut Cursor<'_>,
    version: u32,
    before: u64,
) -> Result<LivePart, FileFault>
    requires { before ≤ 1000000 }
    ensures read { Reads (λ x. x) result cursor.new (part_at version before cursor.old) }
    ensures few { IfOk result (λ part. with_live before part ≤ 1000000) }
{
    let number = cursor.u64()?;
    let documents = documents(cursor, version, before)?;
    let digest = digest(cursor)?;
    let dead = dead(alloc, cursor, version, documents, before)?;
    Ok(LivePart {
        part: DocumentPart {
            number,
            documents,
            digest,
        },
        dead,
    })
}

/// Reads `n` segments of documents.
pub(crate) fn parts(
    alloc: Global,
    cursor: &mut Cursor<'_>,
    version: u32,
    n: u32,
) -> Result<Vec<LivePart>, FileFault>
    ensures { Reads (λ v. v.items) result cursor.new (parts_at version n cursor.old) }
{
    let mut parts = Vec::new(alloc);
    let mut before: u64 = 0;
    for _ in 0..n {
        let part = part(alloc, cursor, version, before)?;
        before += live_of(&part) as u64;
        parts.push(part)?;
    }
    Ok(parts)
}
