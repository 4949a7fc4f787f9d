//! The documents that segments represent under a list of labels: definitions for contracts, and lemmas about them for
//! proofs. It has no code.
#![tactic(auto)]
