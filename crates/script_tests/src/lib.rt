//! Tests of reading scripts, and of the lines of refusals and faults, not all of which an invocation of the program
//! shows.
#![tactic(auto)]

#[cfg(test)]
mod lines;
#[cfg(test)]
mod scripts;
