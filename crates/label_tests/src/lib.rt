//! Tests of labels, documents, counts and the core, for what no invocation of the program shows. They compare with the
//! plain, slow listing that follows the definition.
#![tactic(auto)]

#[cfg(test)]
mod columns;
#[cfg(test)]
mod configs;
#[cfg(test)]
mod cores;
#[cfg(test)]
mod counts;
#[cfg(test)]
mod documents;
#[cfg(test)]
mod labels;
#[cfg(test)]
mod making;
#[cfg(test)]
mod paths;
mod plain;
#[cfg(test)]
mod shares;
#[cfg(test)]
mod views;

pub use plain::plain_top;
