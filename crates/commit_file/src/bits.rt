ghost use Rattle.std.specs.Prelude.{◌≡◌, ◌<◌, ◌*◌, ◌++◌, [], IfOk, OnOk, length};
ghost use Rattle.std.specs.List.{AllByRecursion};
ghost use Rattle.facet_codec.specs.Laws.{IsBelow};
ghost use Rattle.commit_file.specs.LiveBits.{bits_len, byte_at, bits_of, is_set, dead_in, none_past};

use facet_codec::{NoMemory, put_u8};
use std::alloc::{AllocFailed, Global};

/// Returns how many bytes the bits of so many records take.
pub(crate) fn bits_len(documents: u32) -> usize
    ensures { result ≡ bits_len documents }
{
    (documents as usize + 7) / 8
}

// Returns whether the bit of a record is set.
fn is_set(bits: &[u8], place: u64) -> bool
    requires { place < 8 * length bits.now }
    ensures { result ≡ is_set bits.now place }
{
    bits[(place / 8) as usize] >> (place % 8) & 1 == 1
}

/// Returns the places of the records whose bit is not set, rising. It allocates 4 bytes for each of them.
pub(crate) fn dead_in(
    alloc: Global,
    documents: u32,
    bits: &[u8],
) -> Result<Vec<u32>, AllocFailed<u32>>
    requires { length bits.now ≡ bits_len documents }
    ensures { IfOk result (λ dead. dead.items ≡ dead_in documents bits.now) }
{
    let mut dead = Vec::new(alloc);
    for place in 0..documents {
        if !is_set(bits, place as u64) {
            dead.push(place)?;
        }
    }
    Ok(dead)
}

/// Returns whether no bit past the last record is set.
pub(crate) fn none_past(documents: u32, bits: &[u8]) -> bool
    requires { length bits.now ≡ bits_len documents }
    ensures { result ≡ none_past documents bits.now }
{
    for place in documents as u64..8 * bits.len() as u64 {
        if is_set(bits, place) {
            return false;
        }
    }
    true
}

// Returns the byte at this place, if all records are live. The last byte may have fewer than eight records.
fn full_byte(documents: u32, at: u32) -> u8
    ensures { result ≡ byte_at documents [] at }
{
    let left = (documents as u64).saturating_sub(8 * at as u64);
    if left < 8 { (1 << left) - 1 } else { u8::MAX }
}

// Appends the bits of so many records, all of which are live.
fn put_full(out: &mut Vec<u8>, documents: u32) -> Result<(), NoMemory>
    ensures { OnOk result (out.new.items ≡ out.old.items ++ bits_of documents []) }
{
    for at in 0..bits_len(documents) as u32 {
        put_u8(out, full_byte(documents, at))?;
    }
    Ok(())
}

/// Appends the bits of so many records, of which these are not live: it sets all bits, and then clears theirs.
pub(crate) fn put_bits(out: &mut Vec<u8>, documents: u32, dead: &[u32]) -> Result<(), NoMemory>
    requires { AllByRecursion (IsBelow documents) dead.now }
    ensures { OnOk result (out.new.items ≡ out.old.items ++ bits_of documents dead.now) }
{
    let start = out.len();
    put_full(out, documents)?;
    for place in dead {
        out[start + (*place / 8) as usize] &= !(1 << (*place % 8));
    }
    Ok(())
}
