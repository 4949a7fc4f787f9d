ghost use Rattle.std.specs.Prelude.{◌≡◌, ◌≤◌, ◌<◌, length, IfOk, OnOk};
ghost use Rattle.std.specs.List.{AllByRecursion};
ghost use Rattle.facet_names.specs.Labels.{IsLabelList};
ghost use Rattle.seg_decoding.specs.Answers.{IsLeaf};
ghost use Rattle.seg_decoding.specs.Facts.{AreFacts, HasFacts};

use crate::entries::is_leaf;
use crate::facts::{LabelFacts, facts_of};
use crate::unlike::Unlike;
use facet_config::FacetsConfig;
use seg_file::Segment;
use std::alloc::Global;
use taxo_list::Taxonomy;

/// The labels that occurred so far, with what is known of each. It takes 8 bytes for each label that there is, and
/// about 150 for each that occurred.
#[derive(Drop)]
pub struct MetLabels {
    /// By ordinal, the place of the label's facts, if it occurred.
    pub places: Vec<usize>,
    /// What is known of each label that occurred.
    pub facts: Vec<LabelFacts>,
}

impl MetLabels {
    /// Returns that none of `labels` labels occurred. Errors: out of memory.
    pub fn new(alloc: Global, labels: usize) -> Result<MetLabels, Unlike>
        ensures size { IfOk result (λ m. length m.places.items ≡ labels) }
        ensures none { IfOk result (λ m. length m.facts.items ≡ 0) }
    {
        let mut places = Vec::new(alloc);
        places.resize(labels, 0)?;
        Ok(MetLabels {
            places,
            facts: Vec::new(alloc),
        })
    }

    /// Returns the place of a label's facts. They are computed when the label first occurs. Errors: those of
    /// `facts_of`; `Differs` if there is no such label.
    pub fn meet(
        &mut self,
        alloc: Global,
        config: &FacetsConfig,
        labels: &Taxonomy,
        needs: u32,
        segment: &Segment,
        ord: u32,
    ) -> Result<usize, Unlike>
        requires list { IsLabelList labels.now }
        requires needs { needs ≤ length labels.now }
        requires size { needs ≤ length self.old.places.items }
        requires met { AllByRecursion (AreFacts config.now labels.now needs segment.now.terms) self.old.facts.items }
        ensures size { OnOk result (length self.new.places.items ≡ length self.old.places.items) }
        ensures met { OnOk result
            (AllByRecursion (AreFacts config.now labels.now needs segment.now.terms) self.new.facts.items) }
        ensures has { IfOk result (λ at. HasFacts self.new.facts.items at ord) }
    {
        if !is_leaf(needs, ord) {
            return Err(Unlike::Differs);
        }
        let place = self.places[ord as usize];
        if place < self.facts.len() && self.facts[place].ord == ord {
            return Ok(place);
        }
        let facts = facts_of(alloc, config, labels, needs, segment, ord)?;
        let place = self.facts.len();
        self.facts.push(facts)?;
        self.places[ord as usize] = place;
        Ok(place)
    }
}
