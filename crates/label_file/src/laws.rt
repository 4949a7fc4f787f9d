//! Laws of taxonomy segments, for proofs of other crates. The call does nothing: its contract is the laws.

ghost use Rattle.label_file.specs.LabelLaws.{GoesOnToList, HasSoManyMore, HasSome, HasOneSpelling};

/// States the laws of labels that were read after a label list.
pub fn of_labels()
    ensures list { GoesOnToList }
    ensures length { HasSoManyMore }
    ensures some { HasSome }
    ensures spelling { HasOneSpelling }
{}
