ghost use Rattle.std.specs.Prelude.{◌≡◌, ◌<◌, ◌≤◌, ◌+◌, ◌++◌, ◌∷◌, ◌/◌, ◌^◌, [], List, ℕ, All, true, nat_eq, length};
ghost use Rattle.std.specs.Prelude.{map, slice_index_or, if◌then◌else◌, IfOk};
ghost use Rattle.std.specs.List.{list_any, AllPairs};
ghost use Rattle.facet_names.specs.Labels.{IsLabelList};
ghost use Rattle.seg_postings.specs.Rising.{is_in};
ghost use Rattle.facet_counts.specs.Lists.{IsCounted};
ghost use Rattle.facet_counts.specs.Tallies.{HasAdded, AreCounts};

use crate::counts::Counts;
use crate::rolled::{roll, rolled_dims};
use counted_column::Column;
use facet_config::FacetsConfig;
use facet_names::NoMemory;
use place_bits::Bits;
use seg_postings::Ords;
use std::alloc::Global;
use std::marker::Model;
use taxo_list::{Labelled, TaxoView};

/// Counts the ordinals of documents: one number per label of a view, 4 bytes each. For each dimension it has a mark of
/// whether its counts are rolled up.
#[derive(Drop)]
pub struct Counter<'a> {
    view: &'a TaxoView,
    config: &'a FacetsConfig,
    rolled: Vec<bool>,
    counts: Vec<u32>,
    added: u32,
}

impl<'a> Model for Counter<'a> {
    ghost use Rattle.facet_counts.specs.Tallies.{Tally};
    ghost use Rattle.facet_counts.specs.Kept.{IsCounter};

    ghost Value = { Tally };

    ghost view = { λ c. record { labels = c.view.now; config = c.config.now; own = c.counts.items; added = c.added } };

    ghost invariant = { λ c. IsCounter (record {
      labels = c.view.now;
      config = c.config.now;
      own = c.counts.items;
      added = c.added;
    }) c.rolled.items };
}

// Adds one to the count of each of these ordinals.
fn add_each(counts: &mut [u32], mut ords: Ords<'_>)
    requires within { All (λ ord. ord < length counts.old) ords }
    requires distinct { AllPairs (λ a b. a ≡ b → ⊥) ords }
    requires room { (ord : ℕ) → ord < length counts.old → slice_index_or counts.old ord 0 + 1 < 2 ^ 32 }
    ensures { (ord : ℕ) → ord < length counts.old → slice_index_or counts.new ord 0
        ≡ slice_index_or counts.old ord 0 + (if list_any (nat_eq ord) ords.entry then 1 else 0) }
{
    while let Some(ord) = ords.next() {
        counts[ord as usize] += 1;
    }
}

// Adds the other numbers, each at its place.
fn add_counts(counts: &mut [u32], others: &[u32])
    requires same { length counts.old ≡ length others.now }
    requires room { (ord : ℕ) → ord < length counts.old → slice_index_or counts.old ord 0
        + slice_index_or others.now ord 0 < 2 ^ 32 }
    ensures len { length counts.new ≡ length counts.old }
    ensures sums { (ord : ℕ) → ord < length counts.old → slice_index_or counts.new ord 0
        ≡ slice_index_or counts.old ord 0 + slice_index_or others.now ord 0 }
{
    for ord in 0..counts.len() {
        counts[ord] += others[ord];
    }
}

impl<'a> Counter<'a> {
    /// Returns a counter that has counted no document. It takes time and memory proportional to the labels of the view,
    /// and looks each dimension up in the config once. Errors: out of memory.
    pub fn new(
        alloc: Global,
        view: &'a TaxoView,
        config: &'a FacetsConfig,
    ) -> Result<Counter<'a>, NoMemory>
        ensures added { IfOk result (λ c. HasAdded c []) }
        ensures labels { IfOk result (λ c. c.labels ≡ view.now) }
        ensures config { IfOk result (λ c. c.config ≡ config.now) }
        ensures number { IfOk result (λ c. c.added ≡ 0) }
        ensures list { IfOk result (λ c. IsLabelList c.labels) }
    {
        let rolled = rolled_dims(alloc, view, config)?;
        let mut counts = Vec::new(alloc);
        counts.resize(view.size() as usize, 0)?;
        Ok(Counter {
            view,
            config,
            rolled,
            counts,
            added: 0,
        })
    }

    /// Counts a document, by its ordinals. Fewer than a million were counted before. It allocates nothing.
    pub fn add_doc(&mut self, counted: Ords<'_>)
        requires counted { IsCounted self.old.config self.old.labels counted }
        requires few { self.old.added < 1000000 }
        ensures added { (lists : List (List ℕ)) → HasAdded self.old lists
            → HasAdded self.new (lists ++ counted.entry ∷ []) }
        ensures number { self.new.added ≡ self.old.added + 1 }
        ensures labels { self.new.labels ≡ self.old.labels }
        ensures config { self.new.config ≡ self.old.config }
    {
        add_each(&mut self.counts, counted);
        self.added += 1;
    }

    /// Counts the documents of a segment at these places with the segment's column, at the cost of `Column::count_at`.
    /// It allocates nothing.
    pub fn add_column(&mut self, column: &Column, places: &Bits)
        requires words { places.now.words ≡ (length column.now + 63) / 64 }
        requires below { (n : ℕ) → is_in n places.now.places ≡ true → n < length column.now }
        requires counted { (n : ℕ) → is_in n places.now.places ≡ true
            → IsCounted self.old.config self.old.labels (slice_index_or column.now n []) }
        requires few { self.old.added + length places.now.places ≤ 1000000 }
        ensures added { (lists : List (List ℕ)) → HasAdded self.old lists
            → HasAdded self.new (lists ++ map (λ n. slice_index_or column.now n []) places.now.places) }
        ensures number { self.new.added ≡ self.old.added + length places.now.places }
        ensures labels { self.new.labels ≡ self.old.labels }
        ensures config { self.new.config ≡ self.old.config }
    {
        column.count_at(places, &mut self.counts);
        self.added += places.len() as u32;
    }

    /// Counts all documents that another counter over the same labels has counted, with one addition per label.
    /// Together they are at most a million. It allocates nothing.
    pub fn add_counter(&mut self, other: &Counter<'_>)
        requires labels { other.now.labels ≡ self.old.labels }
        requires config { other.now.config ≡ self.old.config }
        requires few { self.old.added + other.now.added ≤ 1000000 }
        ensures added { (lists others : List (List ℕ)) → HasAdded self.old lists → HasAdded other.now others
            → HasAdded self.new (lists ++ others) }
        ensures number { self.new.added ≡ self.old.added + other.now.added }
        ensures labels { self.new.labels ≡ self.old.labels }
        ensures config { self.new.config ≡ self.old.config }
    {
        add_counts(&mut self.counts, &other.counts);
        self.added += other.added;
    }

    /// Returns the counts, rolled up to the parents in dimensions that are hierarchical and not multi-valued. It visits
    /// the labels once, from the last to the first, so that a label's count is complete before it is added to the
    /// parent's. It allocates nothing.
    pub fn roll_up(self) -> Counts<'a>
        ensures counts { (lists : List (List ℕ)) → HasAdded self.entry lists → AreCounts result lists }
        ensures labels { result.labels ≡ self.entry.labels }
        ensures config { result.config ≡ self.entry.config }
    {
        let Counter {
            view,
            config,
            rolled,
            mut counts,
            ..
        } = self;
        roll(view, &rolled, &mut counts);
        Counts::of(view, config, counts)
    }
}
