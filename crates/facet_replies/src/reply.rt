use facet_model::{Document, FacetAnswer, Word};
use facet_names::Path;
use number_facets::Sum;

/// What a search shows of a document.
#[derive(Debug, Drop)]
pub struct Content {
    /// The document's text.
    pub text: String,
    /// The document's labels.
    pub labels: Vec<Path>,
}

/// A hit of a search: the document's place in the snapshot, from 0, and its id.
#[derive(Debug, Drop)]
pub struct HitLine {
    /// The document's place in the snapshot, from 0.
    pub at: u32,
    /// The document's id.
    pub id: Word,
    /// What the search shows of the document, if it does.
    pub content: Option<Content>,
}

/// A range's name, and how many documents have a number in the range.
#[derive(Debug, Drop)]
pub struct RangeLine {
    /// The range's name.
    pub name: String,
    /// The number of documents with a number in the range.
    pub count: u32,
}

/// Why a command was rejected.
#[derive(Clone, Copy, Debug, PartialEq, Eq)]
pub enum Refusal {
    /// The facet at this place, from 0, is a dimension without a label.
    NoComponent { facet: u64 },
    /// The dimension of the facet at this place is not hierarchical, but `len` components follow it.
    NotHierarchical { facet: u64, len: u64 },
    /// The dimension of the facet at this place is not multi-valued, but an earlier facet has it too.
    NotMultiValued { facet: u64 },
    /// A label is missing, and the list of labels may not grow. It has this size, with the root.
    LabelsFull { size: u64 },
    /// There are this many documents, and no more are allowed.
    DocsFull { count: u64 },
    /// The session holds no pair under the name.
    NotHeld,
    /// The session holds a pair under the name already.
    HeldAlready,
    /// The ask at this place, from 0, asks for 0 children.
    TopZero { ask: u64 },
    /// The ask at this place asks for the value of a dimension alone, which is not kept.
    DimValueNotKept { ask: u64 },
    /// There are this many documents, and none at the place.
    NoSuchDocument { count: u64 },
    /// The commit failed on the disk, which has counted this many faults.
    Disk { count: u64 },
    /// An earlier commit failed on the disk at this count of faults. No commit is made after it.
    Closed { count: u64 },
    /// The commit needs file numbers up to this one, which is 2^63 or more.
    NumbersSpent { number: u64 },
    /// Out of memory.
    NoMemory,
}

/// The reply to a command.
#[derive(Debug, Drop)]
pub enum Reply {
    /// To an add: the document's place in the history, from 0.
    Placed {
        at: u64,
    },
    /// To a refresh: the number of documents that searches see from now on. To a commit: the number of documents that
    /// are durable. To a hold or a release: the number of documents of the pair.
    Number {
        n: u64,
    },
    /// To a search: the number of documents that it searched, how many matched, the first of these in order, and one
    /// answer per ask.
    Found {
        n: u64,
        hit_count: u64,
        hits: Vec<HitLine>,
        results: Vec<FacetAnswer>,
    },
    /// To a document: the number of documents of the pair, the place, and the document there with the ordinals of its
    /// labels, in order.
    Shown {
        n: u64,
        at: u32,
        doc: Document,
        ordinals: Vec<u32>,
    },
    /// To stats: how many operations the pair has, how many labels with the root, and how many documents.
    Stats {
        n: u64,
        labels: u32,
        documents: u32,
    },
    /// To ranges: how many operations the pair has, how many of the documents that matched have a number in each range,
    /// in the order of the ranges, and how many have a number at all.
    Ranged {
        n: u64,
        counts: Vec<RangeLine>,
        valued: u32,
    },
    /// To sums: how many operations the pair has, and the first components with the sums of their numbers, over the
    /// documents that matched.
    Summed {
        n: u64,
        sums: Vec<Sum>,
    },
    /// To a merge: all segments that it found are one now.
    Merged,
    /// To a command that was rejected, or that failed.
    Refused(Refusal),
}
