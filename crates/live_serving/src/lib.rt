//! A live process: carries out each line of a client as a phase of its own as soon as it has come, and answers it before
//! it reads more.
#![tactic(auto)]

mod answering;
mod ended;
mod ending;
mod first_line;
mod line_phases;
mod serving;

pub use answering::Answering;
pub use ended::LiveEnded;
pub use line_phases::LinePhases;
pub use serving::serve_live;
