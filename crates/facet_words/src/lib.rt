//! Reads scripts: the lines, their commands, and the first fault. Its specs define which replies to the commands are
//! right.
#![tactic(auto)]

mod asks;
mod command;
mod config_line;
mod fault;
mod held_name;
mod laws;
mod lines;
mod order;
mod parts;
mod query;
mod quick;
mod ranges;
mod script;
mod settings;
mod shape;

pub use command::{Command, Order, Script};
pub use config_line::read_settings;
pub use fault::{ScriptFault, write_fault};
pub use laws::{levels_are_counted, plain_pages, words_match};
pub use lines::line_value;
pub use order::read_line;
pub use parts::{CountedLine, SearchLine};
pub use script::read_script;
pub use settings::Settings;
pub use shape::keys_among;
