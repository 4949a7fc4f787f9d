ghost use Rattle.std.specs.Prelude.{◌≡◌, ◌<◌, ◌^◌, ◌++◌, map, length, IfOk, OnOk};
ghost use Rattle.std.specs.List.{flat_map, AllByRecursion};
ghost use Rattle.facet_codec.specs.Laws.{IsBelow};
ghost use Rattle.facet_codec.specs.Spelling.{be32};
ghost use Rattle.seg_terms.specs.Entries.{stored_of};
ghost use Rattle.seg_writing.specs.Written.{IsRecordPut, AreRecordsPut};

use facet_codec::{NoMemory, put_text, put_u32, put_vint};
use seg_terms::Entry;
use std::alloc::Global;

/// Appends numbers of four bytes each, big-endian. Errors: out of memory.
pub fn put_numbers(out: &mut Vec<u8>, numbers: &[u32]) -> Result<(), NoMemory>
    ensures bytes { OnOk result (out.new.items ≡ out.old.items ++ flat_map be32 numbers.now) }
    ensures fit { AllByRecursion (IsBelow (2 ^ 32)) numbers.now }
{
    for number in numbers {
        put_u32(out, *number)?;
    }
    Ok(())
}

// Appends a record, and returns where its counted ordinals begin. There are as many leaves as facets.
fn put_record(out: &mut Vec<u8>, entry: &Entry) -> Result<usize, NoMemory>
    ensures { IfOk result (λ at. IsRecordPut out.old.items out.new.items at (stored_of entry.now)) }
{
    let text = entry.doc.text();
    put_text(out, entry.doc.id())?;
    put_text(out, text)?;
    put_vint(out, entry.doc.facets().len() as u32)?;
    put_numbers(out, &entry.leaves)?;
    let counted_at = out.len();
    let counted = entry.counted.ords();
    put_vint(out, counted.len() as u32)?;
    put_numbers(out, counted)?;
    Ok(counted_at)
}

/// Appends records, and returns where each begins, and where its counted ordinals begin. Errors: out of memory.
pub fn put_records(
    alloc: Global,
    out: &mut Vec<u8>,
    entries: &[Entry],
) -> Result<(Vec<usize>, Vec<usize>), NoMemory>
    ensures { IfOk result (λ marks. AreRecordsPut out.old.items out.new.items marks.0.items marks.1.items
        (map stored_of entries.now)) }
{
    let mut marks = Vec::with_capacity(alloc, entries.len())?;
    let mut counted = Vec::with_capacity(alloc, entries.len())?;
    for entry in entries {
        marks.push(out.len())?;
        counted.push(put_record(out, entry)?)?;
    }
    Ok((marks, counted))
}
