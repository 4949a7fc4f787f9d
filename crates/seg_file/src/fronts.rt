//! Readers of values that are known to be at the beginning of bytes. None of them can fail.

ghost use Rattle.std.specs.Prelude.{◌≡◌, ◌≤◌, List, ℕ, drop, length};
ghost use Rattle.seg_file.specs.Fronts.{BeginsText, BeginsList, BeginsPlaces};

use facet_codec::Cursor;
use seg_postings::{Ords, Postings};

/// Returns a cursor at a place of the bytes.
pub(crate) fn cursor_at(bytes: &[u8], at: usize) -> Cursor<'_>
    requires { at ≤ length bytes.now }
    ensures { result.rest ≡ drop at bytes.now }
{
    let (_, rest) = bytes.split_at(at);
    Cursor::new(rest)
}

/// Reads a text. Its bytes are known to be UTF-8, and are not checked.
pub(crate) fn text_front<'a>(cursor: &mut Cursor<'a>) -> &'a str
    requires { (t : List ℕ) × (tail : List ℕ) × BeginsText cursor.old.rest t tail }
    ensures { (t tail : List ℕ) → BeginsText cursor.old.rest t tail → (result.now ≡ t) × (cursor.new.rest ≡ tail) }
{
    let Ok(n) = cursor.vint() else {
        unreachable!();
    };
    let Ok(bytes) = cursor.bytes(n as usize) else {
        unreachable!();
    };
    unsafe { str::from_utf8_unchecked(bytes) }
}

/// Reads a list of numbers.
pub(crate) fn list_front<'a>(cursor: &mut Cursor<'a>) -> Ords<'a>
    requires { (ns : List ℕ) × (tail : List ℕ) × BeginsList cursor.old.rest ns tail }
    ensures { (ns tail : List ℕ) → BeginsList cursor.old.rest ns tail → result ≡ ns }
{
    let Ok(n) = cursor.vint() else {
        unreachable!();
    };
    let Ok(bytes) = cursor.bytes(4 * n as usize) else {
        unreachable!();
    };
    Ords::new(bytes)
}

/// Reads a list of places.
pub(crate) fn places_front<'a>(cursor: &mut Cursor<'a>) -> Postings<'a>
    requires { (places : List ℕ) × (tail : List ℕ) × BeginsPlaces cursor.old.rest places tail }
    ensures { (places tail : List ℕ) → BeginsPlaces cursor.old.rest places tail → result ≡ places }
{
    let Ok(n) = cursor.u32() else {
        unreachable!();
    };
    let Ok(bytes) = cursor.bytes(4 * n as usize) else {
        unreachable!();
    };
    Postings::new(bytes)
}
