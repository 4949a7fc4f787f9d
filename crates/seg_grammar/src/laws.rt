//! Laws of the grammar, for proofs of other crates. The call does nothing: its contract is the law. What was read is
//! the segment of its records and terms, and each segment is read as its records and terms. So bytes are the segment of
//! at most one list of records and terms.

ghost use Rattle.std.specs.Prelude.{◌≡◌, ℕ, List, Ok};
ghost use Rattle.facet_codec.specs.Places.{IsBytes};
ghost use Rattle.facet_model.specs.Stored.{Records};
ghost use Rattle.seg_grammar.specs.Spelling.{IsSegment};
ghost use Rattle.seg_grammar.specs.Reading.{segment_at};

/// States the laws of segments as bytes.
pub fn of_segment()
    ensures found { (bytes : List ℕ) (r : Records) → IsBytes bytes → segment_at bytes ≡ Ok r → IsSegment bytes r }
    ensures again { (bytes : List ℕ) (r : Records) → IsSegment bytes r → segment_at bytes ≡ Ok r }
{}
