//! Tests of stored segments, the places of their terms, and searches over them, for what no invocation of the program
//! shows.
#![tactic(auto)]

#[cfg(test)]
mod bits;
#[cfg(test)]
mod codec;
#[cfg(test)]
mod making;
#[cfg(test)]
mod merging;
#[cfg(test)]
mod places;
#[cfg(test)]
mod plans;
#[cfg(test)]
mod searches;
#[cfg(test)]
mod segments;
#[cfg(test)]
mod terms;
