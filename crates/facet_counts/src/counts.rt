ghost use Rattle.std.specs.Prelude.{◌≡◌, ◌<◌, ◌^◌, ℕ, List, Some, None, true, not, nat_lt, pos, negsuc, length, map};
ghost use Rattle.std.specs.Prelude.{slice_index_or, option_map, if◌then◌else◌, IfOk};
ghost use Rattle.std.specs.List.{AllZip};
ghost use Rattle.facet_names.specs.Labels.{place};
ghost use Rattle.facet_model.specs.Asks.{one_value, ask_fault, is_kept_path};
ghost use Rattle.facet_model.specs.Documents.{Doc, dim_of, count};
ghost use Rattle.facet_model.specs.Flags.{flags};
ghost use Rattle.facet_model.specs.ResultViews.{result_view};
ghost use Rattle.facet_model.specs.Results.{IsTop, AreAllDims, specific};
ghost use Rattle.facet_counts.specs.Dims.{AreDims};
ghost use Rattle.facet_counts.specs.Kept.{IsTotals};
ghost use Rattle.facet_counts.specs.Lists.{IsListOf, lists_at};
ghost use Rattle.facet_counts.specs.Tallies.{AreCounts};

use crate::dims::{note_dim, order_dims};
use crate::firsts::{Firsts, first_below};
use crate::links::{child_of, sibling_of};
use facet_config::FacetsConfig;
use facet_model::{DimFlags, FacetResult};
use facet_names::{NoMemory, Path};
use std::alloc::Global;
use std::marker::Model;
use taxo_list::{Labelled, TaxoView};

/// How many documents count for each label of a view: the counts of a counter, rolled up.
#[derive(Drop)]
pub struct Counts<'a> {
    view: &'a TaxoView,
    config: &'a FacetsConfig,
    totals: Vec<u32>,
}

impl<'a> Model for Counts<'a> {
    ghost use Rattle.facet_counts.specs.Tallies.{Totals};
    ghost use Rattle.facet_counts.specs.Kept.{IsTotals};

    ghost Value = { Totals };

    ghost view = { λ c. record { labels = c.view.now; config = c.config.now; totals = c.totals.items } };

    ghost invariant = { λ c. IsTotals (record {
      labels = c.view.now;
      config = c.config.now;
      totals = c.totals.items;
    }) };
}

// Returns the value of a path: the sum of its children's counts if the dimension is not multi-valued, otherwise its own
// count or -1.
fn value_for(flags: DimFlags, own: u32, sum: u64) -> i64
    requires { sum < 2 ^ 63 }
    ensures { result ≡ (if not flags.multi_valued then pos sum
        else (if flags.require_dim_count then pos own else negsuc 0)) }
{
    if !flags.multi_valued {
        sum as i64
    } else if flags.require_dim_count {
        i64::from(own)
    } else {
        -1
    }
}

impl<'a> Counts<'a> {
    pub(crate) fn of(view: &'a TaxoView, config: &'a FacetsConfig, totals: Vec<u32>) -> Counts<'a>
        requires { IsTotals (record { labels = view.now; config = config.now; totals = totals.items }) }
        ensures { result ≡ record { labels = view.now; config = config.now; totals = totals.items } }
    {
        Counts {
            view,
            config,
            totals,
        }
    }

    /// Returns the number of documents that count for a label, in constant time. In a dimension that is hierarchical
    /// and not multi-valued these are the documents with the label or one below it among their ordinals, and in every
    /// other dimension those with the label itself.
    pub fn at(&self, ord: u32) -> u32
        requires some { 0 < ord }
        requires within { ord < length self.now.labels }
        ensures total { result ≡ slice_index_or self.now.totals ord 0 }
        ensures counts { (lists : List (List ℕ)) → AreCounts self.now lists
            → result ≡ lists_at self.now.config self.now.labels lists ord }
        // If the lists are those of documents: the number of these that have the path, if its count is kept.
        ensures documents { (docs : List Doc) (lists : List (List ℕ)) (path : List (List ℕ)) → AreCounts self.now lists
            → AllZip (IsListOf self.now.config self.now.labels) lists docs → place self.now.labels path ≡ Some ord
            → is_kept_path self.now.config path ≡ true
            → result ≡ count docs path }
    {
        self.totals[ord as usize]
    }

    /// Returns the `n` children of a path that the most documents have, as Lucene's `getTopChildren`; ties are broken
    /// by the components' bytes. It returns `None` if no document has a label below the path.
    ///
    /// It walks over the path's children, and allocates the `n` that it lists; if `n` is above 64, each child that has
    /// a document.
    ///
    /// Errors: out of memory.
    pub fn top(&self, alloc: Global, path: &Path, n: u32) -> Result<Option<FacetResult>, NoMemory>
        requires { 0 < n }
        ensures { IfOk result (λ r. (docs : List Doc) (lists : List (List ℕ)) → AreCounts self.now lists
            → AllZip (IsListOf self.now.config self.now.labels) lists docs
            → IsTop self.now.config docs path.now n (option_map result_view r)) }
    {
        let dim_flags = self.config.flags(path.dim());
        match self.view.ordinal_of(path) {
            Some(ord) => self.top_at(alloc, dim_flags, path, ord, n),
            None => Ok(None),
        }
    }

    // Does the same, given the path's ordinal and the flags of its dimension.
    fn top_at(
        &self,
        alloc: Global,
        dim_flags: DimFlags,
        path: &Path,
        ord: u32,
        n: u32,
    ) -> Result<Option<FacetResult>, NoMemory>
        requires flags { dim_flags ≡ flags self.now.config (dim_of path.now) }
        requires some { 0 < length path.now }
        requires place { place self.now.labels path.now ≡ Some ord }
        ensures { IfOk result (λ r. (docs : List Doc) (lists : List (List ℕ)) → AreCounts self.now lists
            → AllZip (IsListOf self.now.config self.now.labels) lists docs
            → IsTop self.now.config docs path.now n (option_map result_view r)) }
    {
        let Firsts {
            children,
            sum,
            number,
        } = first_below(alloc, self.view, &self.totals, ord, n)?;
        if number == 0 {
            return Ok(None);
        }
        let own = self.totals[ord as usize];
        let value = value_for(dim_flags, own, sum);
        let path = path.dup(alloc)?;
        Ok(Some(FacetResult {
            path,
            value,
            children,
            child_count: number,
        }))
    }

    /// Returns the number of documents that have a path, as Lucene's `getSpecificValue`. `exists` is whether a document
    /// of the whole snapshot has it; if not, the result is -1. It takes one look-up in a hash table, and allocates
    /// nothing.
    pub fn specific(&self, path: &Path, exists: bool) -> i64
        requires kept { ask_fault self.now.config (one_value path.now) ≡ None }
        ensures { (docs snapshot : List Doc) (lists : List (List ℕ)) → AreCounts self.now lists
            → AllZip (IsListOf self.now.config self.now.labels) lists docs
            → exists ≡ nat_lt 0 (count snapshot path.now) → result ≡ specific snapshot docs path.now }
    {
        if !exists {
            return -1;
        }
        match self.view.ordinal_of(path) {
            Some(ord) => i64::from(self.totals[ord as usize]),
            None => 0,
        }
    }

    /// Returns the `n` children of each dimension that the most documents have, as Lucene's `getAllDims`. A dimension
    /// without a result is left out. They are ordered by falling values, ties by the rising bytes of the dimensions.
    ///
    /// It walks over the dimensions and their children, and allocates as [`top`](Counts::top) does for each. Errors:
    /// out of memory.
    pub fn all_dims(&self, alloc: Global, n: u32) -> Result<Vec<FacetResult>, NoMemory>
        requires { 0 < n }
        ensures { IfOk result (λ v. (docs : List Doc) (lists : List (List ℕ)) → AreCounts self.now lists
            → AllZip (IsListOf self.now.config self.now.labels) lists docs
            → AreAllDims self.now.config (λ _. docs) n (map result_view v.items)) }
    {
        let mut results = self.each_dim(alloc, n)?;
        order_dims(&mut results);
        Ok(results)
    }

    // Returns the results of all dimensions, the one that was added last first.
    fn each_dim(&self, alloc: Global, n: u32) -> Result<Vec<FacetResult>, NoMemory>
        requires { 0 < n }
        ensures { IfOk result (λ v. (docs : List Doc) (lists : List (List ℕ)) → AreCounts self.now lists
            → AllZip (IsListOf self.now.config self.now.labels) lists docs
            → AreDims (λ _. true) self.now.config (λ _. docs) n (map result_view v.items)) }
    {
        let mut results = Vec::new(alloc);
        let mut next = child_of(self.view, 0);
        while let Some(ord) = next {
            let top = self.top(alloc, self.view.path_of(ord), n)?;
            note_dim(&mut results, top)?;
            next = sibling_of(self.view, ord);
        }
        Ok(results)
    }
}
