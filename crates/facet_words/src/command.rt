use crate::parts::{CountedLine, SearchLine};
use crate::settings::Settings;
use facet_model::{Document, Word};
use number_facets::Range;

/// A command of a session. If it has `on`, it sees the pair that the session holds under this name, and otherwise the
/// pair that was published last.
#[derive(Debug, Drop)]
pub enum Command {
    /// Adds a document at the end of the history.
    Add {
        doc: Document,
    },
    /// Publishes a pair of all documents that were added so far, and of their labels.
    Refresh,
    /// Holds the pair that was published last under a name of 1 to 64 bytes, until it is released.
    Hold {
        name: Word,
    },
    /// Releases the pair that is held under the name.
    Release {
        name: Word,
    },
    /// Answers the asks over the documents of the pair that match the query and pass the drill-down, and lists at most
    /// `hits` of them, in order or with `newest` from the last one on. With `sideways`, each dimension is counted as if the drill-down did not name it, as in
    /// Lucene's `DrillSideways`.
    Search {
        on: Option<Word>,
        line: Box<SearchLine>,
    },
    /// Counts the documents of the pair that match the query, pass the drill-down and have a number of the dimension in
    /// a range, range by range, as Lucene's `LongRangeFacetCounts` does. There are 1 to 64 ranges.
    Ranges {
        on: Option<Word>,
        line: Box<CountedLine>,
        ranges: Vec<Range>,
    },
    /// Adds up the numbers of each component of the dimension, over the documents of the pair that match the query and
    /// pass the drill-down, as Lucene's `TaxonomyFacetIntAssociations` does. It returns the `n` greatest sums.
    Sums {
        on: Option<Word>,
        line: Box<CountedLine>,
        n: u32,
    },
    /// Returns the document at this place of the pair, from 0.
    Document {
        on: Option<Word>,
        at: u32,
    },
    /// Returns how many documents and labels the pair has.
    Stats {
        on: Option<Word>,
    },
    /// Makes everything that was added so far durable.
    Commit,
    /// Merges the segments of the index into one. It changes no document, no label and no pair.
    Merge,
}

/// A command with the number of its session, from 1 to 64, and of its line, from 1.
#[derive(Debug, Drop)]
pub struct Order {
    /// The number of the session, 1 to 64.
    pub session: u32,
    /// The number of the line, from 1.
    pub line: u64,
    /// The command.
    pub command: Command,
}

/// The settings of a script and its commands, phase by phase, each phase in line order. The last phase ends with the
/// script. A phase may be empty.
#[derive(Drop)]
pub struct Script {
    /// The settings of the script.
    pub settings: Settings,
    /// The commands of each phase, in line order.
    pub phases: Vec<Vec<Order>>,
}
