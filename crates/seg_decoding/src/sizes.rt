//! Where the parts of a record are.
ghost use Rattle.std.specs.Prelude.{◌≡◌, ◌≤◌, ◌<◌, ◌+◌, ◌^◌, length};
ghost use Rattle.facet_codec.specs.Spelling.{vint};
ghost use Rattle.seg_grammar.specs.Lookups.{record_of};
ghost use Rattle.seg_grammar.specs.Spelling.{IsRecord, record_bytes};
ghost use Rattle.seg_decoding.specs.Opening.{leaves_place};

use seg_file::Segment;

// Returns how many bytes a count takes, seven bits per byte.
fn count_size(n: usize) -> u64
    requires { n < 2097152 }
    ensures size { result ≡ length (vint n) }
    ensures few { result ≤ 3 }
{
    if n < 128 {
        1
    } else if n < 16384 {
        2
    } else {
        3
    }
}

/// Returns the place of the first leaf of a record that begins at `at`.
pub(crate) fn leaves_place(segment: &Segment, doc: u32, at: u64) -> u64
    requires there { doc < length segment.now.records }
    requires fits { IsRecord (record_of segment.now doc) }
    requires at { at < 2 ^ 62 }
    ensures place { result ≡ leaves_place at (record_of segment.now doc) }
    ensures near { result ≤ at + 66000 }
{
    let id = segment.id(doc).len();
    let text = segment.text(doc).len();
    let leaves = segment.leaves(doc).len();
    let before = count_size(id) + id as u64 + count_size(text) + text as u64;
    at + before + count_size(leaves)
}

/// Returns the place of the record after the one that begins at `at`.
pub(crate) fn next_record(segment: &Segment, doc: u32, at: u64) -> u64
    requires there { doc < length segment.now.records }
    requires fits { IsRecord (record_of segment.now doc) }
    requires at { at < 2 ^ 62 }
    ensures place { result ≡ at + length (record_bytes (record_of segment.now doc)) }
    ensures near { result ≤ at + 100000 }
{
    let leaves = segment.leaves(doc).len() as u64;
    let counted = segment.counted(doc).len();
    leaves_place(segment, doc, at) + 4 * leaves + count_size(counted) + 4 * counted as u64
}
