ghost use Rattle.std.specs.Prelude.{◌≡◌, ◌<◌, length, IfOk};
ghost use Rattle.seg_file.specs.Search.{term_of};

use crate::facts::find_term;
use crate::unlike::Unlike;
use seg_file::Segment;
use std::alloc::Global;

/// Where terms were found, by a hash of their text. Two terms with one hash replace each other.
#[derive(Drop)]
pub struct TermHints {
    places: Vec<usize>,
}

// FNV-1a
fn hash(text: &[u8]) -> usize {
    let mut hash: usize = 0xcbf2_9ce4_8422_2325;
    for byte in text {
        hash = (hash ^ *byte as usize).wrapping_mul(0x100_0000_01b3);
    }
    hash
}

impl TermHints {
    /// Returns hints without a term. It takes 8 bytes for each of `terms` terms. Errors: out of memory.
    pub fn new(alloc: Global, terms: usize) -> Result<TermHints, Unlike> {
        let mut places = Vec::new(alloc);
        places.resize(terms, 0)?;
        Ok(TermHints { places })
    }

    /// Returns the index of a term among the segment's. A term that was found before takes one comparison, and others a
    /// binary search. Errors: `Differs` if it is not stored.
    pub fn find(&mut self, segment: &Segment, term: &str) -> Result<usize, Unlike>
        ensures there { IfOk result (λ at. at < length segment.now.terms) }
        ensures is { IfOk result (λ at. (term_of segment.now.terms at).0 ≡ term.now) }
    {
        let slots = self.places.len();
        if slots == 0 {
            return find_term(segment, term);
        }
        let slot = hash(term.as_bytes()) % slots;
        let place = self.places[slot];
        if place < segment.terms() && segment.term_text(place) == term {
            return Ok(place);
        }
        let at = find_term(segment, term)?;
        self.places[slot] = at;
        Ok(at)
    }
}
