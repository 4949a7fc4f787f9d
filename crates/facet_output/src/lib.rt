//! Which output of a script of several sessions is right, and the proof that sessions whose calls keep their contracts
//! give such an output.
//!
//! The crate has definitions and laws only, and no code that runs. The definitions are what a program of several
//! sessions has to satisfy. The laws derive them from the contracts of the program's calls.
#![tactic(auto)]

mod laws;

pub use laws::{
    commits_have_points, one_session_has_its_labels, one_session_is_exact, one_session_is_served,
    sessions_give_bytes, sessions_give_output,
};
