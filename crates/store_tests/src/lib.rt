//! Tests of sources and sinks whose reads and writes fail, and of disks in real folders.
#![tactic(auto)]

#[cfg(test)]
mod folders;
#[cfg(test)]
mod steps;
#[cfg(test)]
mod streams;
