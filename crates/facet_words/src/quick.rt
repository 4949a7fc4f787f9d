//! Reads the usual form of a line that adds a document, token by token, without making a JSON value. Every other line
//! is read from its value.
mod found;
mod line;
mod member;
mod texts;

pub use line::read_add;
