//! Adding labels for the holder of their lock: the value of the labels chronicle, and resolving paths to ordinals,
//! where each missing prefix of a path is added and entered into the chronicle.
#![tactic(auto)]

mod label_list;
mod resolving;

pub use label_list::LabelList;
pub use resolving::{add_behind_each, add_each};
