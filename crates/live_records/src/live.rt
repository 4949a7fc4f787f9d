ghost use Rattle.std.specs.Prelude.{◌≡◌, ◌<◌, ◌*◌, ◌||◌, not, [], ℕ, false, IfOk};
ghost use Rattle.std.specs.List.{AllByRecursion};
ghost use Rattle.facet_codec.specs.Laws.{IsBelow};
ghost use Rattle.seg_postings.specs.Rising.{IsRising, is_in};
ghost use Rattle.facet_model.specs.Stored.{is_dead, live_before};

use crate::search::{first_from, past_rank};
use facet_names::NoMemory;
use place_bits::Bits;
use seg_postings::Places;
use std::alloc::Global;
use std::marker::Model;

/// Which of the records of a segment are live. It stores the places of the dead ones, rising, 4 bytes each.
#[derive(Drop)]
pub struct LiveRecords {
    docs: u32,
    dead: Vec<u32>,
}

impl Model for LiveRecords {
    ghost use Rattle.std.specs.Prelude.{◌<◌};
    ghost use Rattle.std.specs.List.{AllByRecursion};
    ghost use Rattle.facet_codec.specs.Laws.{IsBelow};
    ghost use Rattle.seg_postings.specs.Rising.{IsRising};
    ghost use Rattle.live_records.specs.Live.{Live};

    ghost Value = { Live };

    ghost view = { λ l. record { docs = l.docs; dead = l.dead.items } };

    ghost invariant = { λ l. IsRising l.dead.items × AllByRecursion (IsBelow l.docs) l.dead.items
        × (l.docs < 4294967296) };
}

impl LiveRecords {
    /// Returns that all of `docs` records are live. It allocates nothing.
    pub fn all(alloc: Global, docs: u32) -> LiveRecords
        ensures { result ≡ record { docs = docs; dead = [] } }
    {
        LiveRecords {
            docs,
            dead: Vec::new(alloc),
        }
    }

    /// Returns how many records are live, in constant time.
    pub fn number(&self) -> u32
        ensures { result ≡ live_before self.now.dead self.now.docs }
    {
        self.docs - self.dead.len() as u32
    }

    /// Returns whether the record at the place is live, by binary search.
    pub fn is_live(&self, place: u32) -> bool
        ensures { result ≡ not (is_dead self.now.dead place) }
    {
        let at = first_from(&self.dead, place);
        at == self.dead.len() || self.dead[at] != place
    }

    /// Returns how many live records are before the place, by binary search.
    pub fn rank(&self, place: u32) -> u32
        ensures { result ≡ live_before self.now.dead place }
    {
        place - first_from(&self.dead, place) as u32
    }

    /// Returns the place of the live record with `rank` live ones before it, by binary search.
    pub fn place_of(&self, rank: u32) -> u32
        requires { rank < live_before self.now.dead self.now.docs }
        ensures within { result < self.now.docs }
        ensures live { is_dead self.now.dead result ≡ false }
        ensures rank { live_before self.now.dead result ≡ rank }
    {
        rank + past_rank(&self.dead, rank) as u32
    }

    /// Returns the places of the records that are not live, rising.
    pub fn dead(&self) -> &[u32]
        ensures dead { result.now ≡ self.now.dead }
        ensures rise { IsRising self.now.dead }
        ensures within { AllByRecursion (IsBelow self.now.docs) self.now.dead }
    {
        &self.dead
    }

    /// Returns the live records without those at these places. While it works it takes one bit per record. Errors: out
    /// of memory.
    pub fn without(&self, alloc: Global, places: &[u32]) -> Result<LiveRecords, NoMemory>
        requires { AllByRecursion (IsBelow self.now.docs) places.now }
        ensures docs { IfOk result (λ r. r.docs ≡ self.now.docs) }
        ensures dead { IfOk result (λ r. (n : ℕ) → is_dead r.dead n
            ≡ (is_dead self.now.dead n || is_dead places.now n)) }
        ensures rise { IfOk result (λ r. IsRising r.dead) }
        ensures within { IfOk result (λ r. AllByRecursion (IsBelow r.docs) r.dead) }
    {
        let mut set = Bits::none(alloc, self.docs)?;
        add_each(&mut set, &self.dead);
        add_each(&mut set, places);
        let dead = listed(alloc, set)?;
        Ok(LiveRecords {
            docs: self.docs,
            dead,
        })
    }
}

// Adds each of the places.
fn add_each(set: &mut Bits, places: &[u32])
    requires { AllByRecursion (IsBelow (64 * set.old.words)) places.now }
    ensures words { set.new.words ≡ set.old.words }
    ensures added { (n : ℕ) → is_in n set.new.places ≡ (is_in n set.old.places || is_in n places.now) }
{
    for k in 0..places.len() {
        set.add(places[k]);
    }
}

// Returns the places of the set.
fn listed(alloc: Global, set: Bits) -> Result<Vec<u32>, NoMemory>
    ensures all { IfOk result (λ v. v.items ≡ set.places) }
    ensures rise { IsRising set.places }
{
    let mut left = set.into_places();
    let mut places = Vec::new(alloc);
    while let Some(place) = left.next() {
        places.push(place)?;
    }
    Ok(places)
}
