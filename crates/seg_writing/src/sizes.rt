//! How many bytes a segment takes, so that its memory is allocated once.

use seg_terms::{Entry, TermPlaces};

// Returns the bytes of a text and of its length, a vInt.
fn text_size(len: usize) -> usize {
    let front = if len < 0x80 {
        1
    } else if len < 0x4000 {
        2
    } else if len < 0x20_0000 {
        3
    } else if len < 0x1000_0000 {
        4
    } else {
        5
    };
    len.saturating_add(front)
}

// Returns the bytes of numbers of four bytes after their count, which has at most two bytes.
fn list_size(len: usize) -> usize {
    len.saturating_mul(4).saturating_add(2)
}

fn record_size(entry: &Entry) -> usize {
    let id = text_size(entry.doc.id().len());
    let text = text_size(entry.doc.text().len());
    let leaves = list_size(entry.leaves.len());
    let counted = list_size(entry.counted.ords().len());
    id.saturating_add(text)
        .saturating_add(leaves)
        .saturating_add(counted)
}

fn term_size(term: &TermPlaces) -> usize {
    let text = text_size(term.term.len());
    let places = list_size(term.places.len());
    text.saturating_add(places).saturating_add(2)
}

/// Returns an upper bound of the bytes of a segment, at most two bytes per document above the exact number.
pub(crate) fn segment_size(entries: &[Entry], terms: &[TermPlaces]) -> usize {
    let mut size: usize = 16;
    for entry in entries {
        size = size.saturating_add(record_size(entry));
    }
    for term in terms {
        size = size.saturating_add(term_size(term));
    }
    size
}
