ghost use Rattle.std.specs.Prelude.{◌≡◌, ℕ, ◌<◌, List, [], ◌∷◌, ◌++◌, codes, map, flat_map, position, string_bytes};
ghost use Rattle.std.specs.Prelude.{IfOk, OnOk};
ghost use Rattle.std.specs.List.{slice_split, AllByRecursion};
ghost use Rattle.std.specs.List.Sorted.{IsStrictlySortedBy};
ghost use Rattle.std.specs.Map.{keys_of};
ghost use Rattle.std.specs.Str.{IsUtf8};
ghost use Rattle.facet_names.specs.Faults.{IsPath};
ghost use Rattle.facet_names.specs.Labels.{prefixes};
ghost use Rattle.facet_model.specs.Words.{is_blank, word_cmp};
ghost use Rattle.facet_model.specs.Terms.{doc_terms};
ghost use Rattle.seg_terms.specs.Noting.{found, AreNoted, piece_terms, path_terms};
ghost use Rattle.seg_terms.specs.Places.{term_view, IsShortTerm};

use crate::table::TermTable;
use crate::term_places::TermPlaces;
use facet_model::{Document, is_blank};
use facet_names::{NoMemory, Path, push_part};
use std::alloc::Global;
use std::hash::RandomState;

/// Collects the terms of documents. It makes the text of each term in one buffer, so a known term allocates nothing.
#[derive(Drop)]
pub struct TermCollector {
    table: TermTable,
    term: String,
}

/// Returns where the first word of a text ends: the place of the first blank, or `None` if there is none. The word is
/// empty if the text begins with a blank. Blanks are space, tab, carriage return and line feed.
pub fn word_end(text: &[u8]) -> Option<usize>
    ensures { result ≡ position is_blank text.now }
{
    text.iter().position(|byte| is_blank(*byte))
}

/// Makes `term` the term of a word, which is UTF-8: a `w` and the word. Errors: out of memory; then `term` may have a
/// prefix of it.
pub fn write_word_term(term: &mut String, word: &[u8]) -> Result<(), NoMemory>
    requires { IsUtf8 word.now }
    ensures { OnOk result (string_bytes term.new ≡ codes "w" ++ word.now) }
{
    let word = unsafe { str::from_utf8_unchecked(word) };
    term.clear();
    term.push('w')?;
    term.push_str(word)?;
    Ok(())
}

impl TermCollector {
    /// Returns a collector without a term. `keys` are the hash keys of terms. Errors: out of memory.
    pub fn new(alloc: Global, keys: RandomState) -> Result<TermCollector, NoMemory>
        ensures { IfOk result (λ c. c.table ≡ []) }
    {
        let table = TermTable::new(alloc, keys)?;
        Ok(TermCollector {
            table,
            term: String::new(alloc),
        })
    }

    // An empty piece is not a word.
    fn note_word(&mut self, word: &[u8], place: u32) -> Result<(), NoMemory>
        requires { IsUtf8 word.now }
        ensures { OnOk result (AreNoted place (piece_terms (word.now ∷ [])) self.old.table self.new.table) }
    {
        if word.is_empty() {
            return Ok(());
        }
        write_word_term(&mut self.term, word)?;
        self.table.note(self.term.as_str(), place)
    }

    // The text is lowered.
    fn note_words(&mut self, text: &str, place: u32) -> Result<(), NoMemory>
        ensures { OnOk result (AreNoted place
            (piece_terms (slice_split is_blank text.now)) self.old.table self.new.table) }
    {
        let mut rest = text.as_bytes();
        while let Some(end) = word_end(rest) {
            self.note_word(&rest[..end], place)?;
            let (_, after) = rest.split_at(end + 1);
            rest = after;
        }
        self.note_word(rest, place)
    }

    // Each prefix continues the one before it.
    fn note_label(&mut self, label: &Path, place: u32) -> Result<(), NoMemory>
        ensures noted { OnOk result (AreNoted place (path_terms (prefixes label.now)) self.old.table self.new.table) }
        ensures fits { OnOk result (IsPath label.now) }
    {
        self.term.clear();
        self.term.push('f')?;
        for at in 0..label.len() {
            push_part(&mut self.term, at, label.part(at))?;
            self.table.note(self.term.as_str(), place)?;
        }
        Ok(())
    }

    fn note_labels(&mut self, labels: &[Path], place: u32) -> Result<(), NoMemory>
        ensures noted { OnOk result (AreNoted place (path_terms
            (flat_map prefixes labels.now)) self.old.table self.new.table) }
        ensures fit { OnOk result (AllByRecursion IsPath labels.now) }
    {
        for label in labels {
            self.note_label(label, place)?;
        }
        Ok(())
    }

    /// Notes the place under each term of a document. It allocates a lowered copy of the text, which it drops. Errors:
    /// out of memory.
    pub fn note_document(
        &mut self,
        alloc: Global,
        doc: &Document,
        place: u32,
    ) -> Result<(), NoMemory>
        ensures noted { OnOk result (AreNoted place (doc_terms doc.now) self.old.table self.new.table) }
        ensures short { OnOk result (AllByRecursion IsShortTerm (doc_terms doc.now)) }
    {
        let lowered = doc.text().to_ascii_lowercase(alloc)?;
        self.note_words(lowered.as_str(), place)?;
        self.note_labels(doc.facets(), place)
    }

    /// Returns the terms with their places, sorted by the bytes of the terms. Errors: out of memory.
    pub fn into_sorted(self, alloc: Global) -> Result<Vec<TermPlaces>, NoMemory>
        ensures rising { IfOk result (λ v. IsStrictlySortedBy word_cmp (keys_of (map term_view v.items))) }
        ensures same { IfOk result (λ v. (t : List ℕ) → found (map term_view v.items) t ≡ found self.table t) }
    {
        self.table.into_sorted(alloc)
    }
}
