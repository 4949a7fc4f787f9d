ghost use Rattle.std.specs.Prelude.{◌≡◌, ◌<◌, IfOk, length, map, Some, slice_get, string_bytes};
ghost use Rattle.std.specs.List.{slice_split};
ghost use Rattle.std.specs.Str.{IsUtf8};
ghost use Rattle.facet_model.specs.Words.{is_blank, words};

use facet_names::NoMemory;
use std::alloc::{AllocError, Global};
use std::marker::Model;

/// The words of a text, in order, with repeats.
#[derive(Debug, Drop)]
pub struct WordList {
    words: Vec<String>,
}

impl Model for WordList {
    ghost use Rattle.std.specs.Prelude.{List, ℕ, map, string_bytes};

    ghost Value = { List (List ℕ) };

    ghost view = { λ w. map string_bytes w.words.items };
}

impl WordList {
    /// Returns how many words there are.
    pub fn len(&self) -> usize
        ensures { result ≡ length self.now }
    {
        self.words.len()
    }

    /// Returns the word at a place, from 0.
    pub fn at(&self, place: usize) -> &str
        requires { place < length self.now }
        ensures { slice_get self.now place ≡ Some result.now }
    {
        self.words[place].as_str()
    }
}

/// Returns whether a byte is a space, a tab, a carriage return or a line feed.
pub fn is_blank(byte: u8) -> bool
    ensures { result ≡ is_blank byte }
{
    matches!(byte, b' ' | b'\t' | b'\r' | b'\n')
}

// Returns the pieces between blanks.
fn pieces(alloc: Global, text: &str) -> Result<Vec<&[u8]>, AllocError>
    ensures { IfOk result (λ v. map (λ x. x.now) v.items ≡ slice_split is_blank text.now) }
{
    text.as_bytes().split(|byte| is_blank(*byte)).collect(alloc)
}

// Copies bytes that are a text.
fn copied(alloc: Global, piece: &[u8]) -> Result<String, NoMemory>
    requires { IsUtf8 piece.now }
    ensures { IfOk result (λ s. string_bytes s ≡ piece.now) }
{
    let piece = unsafe { str::from_utf8_unchecked(piece) };
    Ok(String::from_str(alloc, piece)?)
}

/// Splits a text into words: the pieces between spaces, tabs, carriage returns and line feeds, as Lucene's
/// `WhitespaceAnalyzer` does, with `A` to `Z` lowered. All other bytes stay, and so do repeats.
///
/// It allocates a lowered copy of the text, which it drops, and each word. Errors: out of memory.
pub fn words(alloc: Global, text: &str) -> Result<WordList, NoMemory>
    ensures { IfOk result (λ w. w ≡ words text.now) }
{
    let lowered = text.to_ascii_lowercase(alloc)?;
    let pieces = pieces(alloc, lowered.as_str())?;
    let mut words = Vec::new(alloc);
    for piece in &pieces {
        if !piece.is_empty() {
            words.push(copied(alloc, *piece)?)?;
        }
    }
    Ok(WordList { words })
}
