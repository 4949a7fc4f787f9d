//! A walk over the places of a segment's terms, document by document.
ghost use Rattle.std.specs.Prelude.{◌≡◌, ◌<◌, ℕ, List, [], ◌∷◌, length, slice_index_or, All, OnOk, IfOk};
ghost use Rattle.std.specs.List.{slice_split};
ghost use Rattle.std.specs.Str.{IsUtf8, str_to_ascii_lowercase};
ghost use Rattle.facet_model.specs.Words.{is_blank};
ghost use Rattle.seg_file.specs.Search.{term_of};
ghost use Rattle.seg_terms.specs.Noting.{piece_terms};
ghost use Rattle.seg_decoding.specs.Facts.{texts_at};
ghost use Rattle.seg_decoding.specs.Pairs.{Passes};

use crate::hints::TermHints;
use crate::unlike::Unlike;
use seg_file::Segment;
use seg_terms::{word_end, write_word_term};
use std::alloc::Global;

/// How many places of each term were passed, where words were found, and a buffer for the text of a term.
#[derive(Drop)]
pub struct Walk {
    /// How many places of each term were passed.
    pub next: Vec<usize>,
    /// Where words were found.
    pub hints: TermHints,
    /// A buffer for the text of a term.
    pub term: String,
}

// Passes the document's place under the term at an index, if it is the next one, or was passed last.
fn pass(segment: &Segment, next: &mut Vec<usize>, term: usize, doc: u32) -> Result<(), Unlike>
    requires there { term < length segment.now.terms }
    requires size { length next.old.items ≡ length segment.now.terms }
    ensures { OnOk result (Passes segment.now.terms doc
        ((term_of segment.now.terms term).0 ∷ []) next.old.items next.new.items) }
{
    let places = segment.places(term);
    let at = next[term];
    if at > 0 && at - 1 < places.len() && places.at(at - 1) == doc {
        return Ok(());
    }
    if at >= places.len() || places.at(at) != doc {
        return Err(Unlike::Differs);
    }
    next[term] = at + 1;
    Ok(())
}

impl Walk {
    /// Returns a walk over `terms` terms before the first place. Errors: out of memory.
    pub fn new(alloc: Global, terms: usize) -> Result<Walk, Unlike>
        ensures size { IfOk result (λ w. length w.next.items ≡ terms) }
        ensures none { IfOk result (λ w. (at : ℕ) → slice_index_or w.next.items at 0 ≡ 0) }
    {
        let mut next = Vec::with_capacity(alloc, terms)?;
        for _ in 0..terms {
            next.push(0)?;
        }
        Ok(Walk {
            next,
            hints: TermHints::new(alloc, terms)?,
            term: String::new(alloc),
        })
    }

    /// Checks that each place of each term was passed. Errors: `Differs`.
    pub fn check_end(&self, segment: &Segment) -> Result<(), Unlike>
        requires { length self.now.next.items ≡ length segment.now.terms }
        ensures { OnOk result ((at : ℕ) → at < length segment.now.terms
            → slice_index_or self.now.next.items at 0 ≡ length (term_of segment.now.terms at).1) }
    {
        for term in 0..segment.terms() {
            if self.next[term] != segment.places(term).len() {
                return Err(Unlike::Differs);
            }
        }
        Ok(())
    }

    // An empty piece is not a word.
    fn pass_word(&mut self, segment: &Segment, word: &[u8], doc: u32) -> Result<(), Unlike>
        requires utf8 { IsUtf8 word.now }
        requires size { length self.old.next.items ≡ length segment.now.terms }
        ensures { OnOk result (Passes segment.now.terms doc (piece_terms
            (word.now ∷ [])) self.old.next.items self.new.next.items) }
    {
        if word.is_empty() {
            return Ok(());
        }
        write_word_term(&mut self.term, word)?;
        let term = self.hints.find(segment, self.term.as_str())?;
        pass(segment, &mut self.next, term, doc)
    }

    // The text is lowered.
    fn pass_words(&mut self, segment: &Segment, text: &str, doc: u32) -> Result<(), Unlike>
        requires { length self.old.next.items ≡ length segment.now.terms }
        ensures { OnOk result (Passes segment.now.terms doc (piece_terms
            (slice_split is_blank text.now)) self.old.next.items self.new.next.items) }
    {
        let mut rest = text.as_bytes();
        while let Some(end) = word_end(rest) {
            self.pass_word(segment, &rest[..end], doc)?;
            let (_, after) = rest.split_at(end + 1);
            rest = after;
        }
        self.pass_word(segment, rest, doc)
    }

    /// Passes the document's place under the words of a text. It allocates a lowered copy of the text, which it drops.
    /// Errors: `Differs` if a word is not stored with this place next; out of memory.
    pub fn pass_text(
        &mut self,
        alloc: Global,
        segment: &Segment,
        text: &str,
        doc: u32,
    ) -> Result<(), Unlike>
        requires { length self.old.next.items ≡ length segment.now.terms }
        ensures { OnOk result
            (Passes segment.now.terms doc (piece_terms (slice_split is_blank
            (str_to_ascii_lowercase text.now))) self.old.next.items self.new.next.items) }
    {
        let lowered = text.to_ascii_lowercase(alloc)?;
        self.pass_words(segment, lowered.as_str(), doc)
    }

    /// Passes the document's place under the terms at these indexes. Errors: `Differs`.
    pub fn pass_terms(&mut self, segment: &Segment, terms: &[usize], doc: u32) -> Result<(), Unlike>
        requires there { All (λ at. at < length segment.now.terms) terms.now }
        requires size { length self.old.next.items ≡ length segment.now.terms }
        ensures { OnOk result (Passes segment.now.terms doc
            (texts_at segment.now.terms terms.now) self.old.next.items self.new.next.items) }
    {
        for term in terms {
            pass(segment, &mut self.next, *term, doc)?;
        }
        Ok(())
    }
}
