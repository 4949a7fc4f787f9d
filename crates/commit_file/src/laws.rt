//! Laws of commits, for proofs of other crates. Each call does nothing: its contract is the law. A commit that was read
//! is spelled as it was read, so in each version a commit has exactly one spelling; and it is within the limits.

ghost use Rattle.std.specs.Prelude.{◌≡◌, ◌⊎◌, ℕ, List, Ok};
ghost use Rattle.facet_codec.specs.Places.{IsBytes};
ghost use Rattle.facet_model.specs.Flags.{Config, flags};
ghost use Rattle.commit_file.specs.Commits.{TaxonomyListing, IndexListing, kept_of};
ghost use Rattle.commit_file.specs.Limits.{IsTaxonomy, IsIndex};
ghost use Rattle.commit_file.specs.Spelling.{taxonomy_commit_bytes, index_commit_bytes, old_index_commit_bytes};
ghost use Rattle.commit_file.specs.Reading.{taxonomy_commit, index_commit};

/// States the laws of commits of the taxonomy that were read.
pub fn of_taxonomy_commit()
    ensures spelled { (number : ℕ) (bytes : List ℕ) (c : TaxonomyListing) → IsBytes bytes
        → taxonomy_commit number bytes ≡ Ok c → bytes ≡ taxonomy_commit_bytes number c }
    ensures limits { (number : ℕ) (bytes : List ℕ) (c : TaxonomyListing) → IsBytes bytes
        → taxonomy_commit number bytes ≡ Ok c → IsTaxonomy c }
{}

/// States the laws of commits of the index that were read.
pub fn of_index_commit()
    ensures spelled { (number : ℕ) (bytes : List ℕ) (c : IndexListing) → IsBytes bytes
        → index_commit number bytes ≡ Ok c
        → (bytes ≡ index_commit_bytes number c) ⊎ (bytes ≡ old_index_commit_bytes number c) }
    ensures limits { (number : ℕ) (bytes : List ℕ) (c : IndexListing) → IsBytes bytes
        → index_commit number bytes ≡ Ok c → IsIndex c }
{}

/// States that in the stored declarations of a config each dimension has the flags that the config gives it.
pub fn of_kept()
    ensures { (config : Config) (dim : List ℕ) → flags (kept_of config) dim ≡ flags config dim }
{}
