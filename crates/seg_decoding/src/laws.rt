//! Laws of stored segments, for proofs of other crates. Each call does nothing: its contract is the law.

ghost use Rattle.std.specs.Prelude.{ℕ, List};
ghost use Rattle.facet_model.specs.Flags.{Config};
ghost use Rattle.facet_model.specs.Stored.{Records};
ghost use Rattle.seg_decoding.specs.Laws.{OpensOnly, OpensAgain, OpensLater, OpensAlike, StandAlike};

/// States that only the segment in the bytes is opened.
pub fn of_opened()
    ensures { (config : Config) (known : List (List (List ℕ))) (needs documents : ℕ) (bytes : List ℕ) (s : Records)
        → OpensOnly config known needs documents bytes s }
{}

/// States that what is built for documents can be opened, also after the list of labels grew.
pub fn of_built()
    ensures again { (config : Config) (known : List (List (List ℕ))) (needs : ℕ) (s : Records)
        → OpensAgain config known needs s }
    ensures later { (config : Config) (view known : List (List (List ℕ))) (s : Records)
        → OpensLater config view known s }
{}

/// States that a list of labels that grows changes nothing.
pub fn of_more_labels()
    ensures opened { (config : Config) (known longer : List (List (List ℕ))) → OpensAlike config known longer }
    ensures documents { (config : Config) (known longer : List (List (List ℕ))) → StandAlike config known longer }
{}
