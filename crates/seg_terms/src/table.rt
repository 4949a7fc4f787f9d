ghost use Rattle.std.specs.Prelude.{◌≡◌, ◌<◌, ℕ, List, [], ◌∷◌, ◌++◌, true, Some, None, IfSome, length, map};
ghost use Rattle.std.specs.Prelude.{option_map, slice_get, IfOk, OnOk};
ghost use Rattle.std.specs.List.Sorted.{IsStrictlySortedBy};
ghost use Rattle.std.specs.Map.{keys_of};
ghost use Rattle.facet_model.specs.Words.{word_cmp};
ghost use Rattle.seg_terms.specs.Noting.{put_place, found, AreNoted, AreNotedBehind};
ghost use Rattle.seg_terms.specs.Places.{term_view};

use crate::recent::{RecentTerms, slot_of};
use crate::term_places::TermPlaces;
use facet_names::NoMemory;
use indexmap::IndexMap;
use std::alloc::Global;
use std::hash::RandomState;
use std::marker::Model;

/// Terms with the places of the documents that have them, found by hash. The number of a term is its place in the order
/// of their arrival.
#[derive(Drop)]
pub struct TermTable {
    terms: IndexMap<String, Vec<u32>, RandomState>,
    recent: RecentTerms,
}

impl Model for TermTable {
    ghost use Rattle.seg_terms.specs.Noting.{Table, table_of};

    ghost Value = { Table };

    ghost view = { λ t. table_of t.terms.entries };
}

// Adds a place after the others, unless it is the last one.
fn put_place(places: &mut Vec<u32>, place: u32) -> Result<(), NoMemory>
    ensures { OnOk result (places.new.items ≡ put_place places.old.items place) }
{
    if let Some(last) = places.last() {
        if *last == place {
            return Ok(());
        }
    }
    places.push(place)?;
    Ok(())
}

// Adds places after the others.
fn put_all(noted: &mut Vec<u32>, places: &[u32]) -> Result<(), NoMemory>
    ensures { OnOk result (noted.new.items ≡ noted.old.items ++ places.now) }
{
    noted.extend_from_slice(places)?;
    Ok(())
}

impl TermTable {
    /// Returns a table without a term. `keys` are the hash keys of terms; no result depends on them. Errors: out of
    /// memory.
    pub fn new(alloc: Global, keys: RandomState) -> Result<TermTable, NoMemory>
        ensures { IfOk result (λ t. t ≡ []) }
    {
        let recent = RecentTerms::new(alloc)?;
        Ok(TermTable {
            terms: IndexMap::with_hasher(alloc, keys),
            recent,
        })
    }

    /// Notes a place under a term. It allocates the text of a new term, and the places when they grow. A recent term is
    /// found by one comparison, and others by hash.
    ///
    /// Errors: out of memory.
    pub fn note(&mut self, term: &str, place: u32) -> Result<(), NoMemory>
        ensures { OnOk result (AreNoted place (term.now ∷ []) self.old self.new) }
    {
        let slot = slot_of(term);
        let guess = self.recent.at(slot);
        if self.is_at(guess, term) {
            return self.put_at(guess, place);
        }
        match self.terms.get_full(term) {
            Some((number, _, _)) => {
                self.recent.put(slot, number);
                self.put_at(number, place)
            }
            None => {
                self.recent.put(slot, self.terms.len());
                self.add(term, place)
            }
        }
    }

    fn is_at(&self, number: usize, term: &str) -> bool
        ensures { result ≡ true → option_map (λ e. e.0) (slice_get self.now number) ≡ Some term.now }
    {
        match self.terms.get_index(number) {
            Some((known, _)) => known.as_str() == term,
            None => false,
        }
    }

    // Notes a place under the term with a number.
    fn put_at(&mut self, number: usize, place: u32) -> Result<(), NoMemory>
        requires { number < length self.old }
        ensures { OnOk result (IfSome (slice_get self.old number) (λ e. AreNoted place (e.0 ∷ []) self.old self.new)) }
    {
        let (_, places) = self.terms.pair_mut(number);
        put_place(places, place)
    }

    // Adds a new term.
    fn add(&mut self, term: &str, place: u32) -> Result<(), NoMemory>
        requires { found self.old term.now ≡ None }
        ensures { OnOk result (AreNoted place (term.now ∷ []) self.old self.new) }
    {
        let alloc = *self.terms.allocator();
        let mut places = Vec::new(alloc);
        places.push(place)?;
        self.terms.insert(String::from_str(alloc, term)?, places)?;
        Ok(())
    }

    /// Notes places of a term after those that it has, in the order given. A term without a place is not noted. It
    /// allocates the text of a new term, and the places. Errors: out of memory.
    pub fn note_all(&mut self, term: &str, places: &[u32]) -> Result<(), NoMemory>
        ensures { OnOk result (AreNotedBehind term.now places.now self.old self.new) }
    {
        if places.is_empty() {
            return Ok(());
        }
        if let Some(noted) = self.terms.get_mut(term) {
            return put_all(noted, places);
        }
        let alloc = *self.terms.allocator();
        let mut noted = Vec::new(alloc);
        put_all(&mut noted, places)?;
        self.terms.insert(String::from_str(alloc, term)?, noted)?;
        Ok(())
    }

    /// Returns the terms with their places, sorted by the bytes of the terms. Errors: out of memory.
    pub fn into_sorted(mut self, alloc: Global) -> Result<Vec<TermPlaces>, NoMemory>
        ensures rising { IfOk result (λ v. IsStrictlySortedBy word_cmp (keys_of (map term_view v.items))) }
        ensures same { IfOk result (λ v. (t : List ℕ) → found (map term_view v.items) t ≡ found self t) }
    {
        self.terms.sort_keys()?;
        let mut sorted = Vec::with_capacity(alloc, self.terms.len())?;
        for (term, places) in self.terms {
            sorted.push(TermPlaces { term, places })?;
        }
        Ok(sorted)
    }
}
