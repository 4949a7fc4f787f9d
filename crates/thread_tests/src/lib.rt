//! Tests of threads: the lock of a chronicle, the writer of labels with its cache and its views, and published pairs.
#![tactic(auto)]

#[cfg(test)]
mod labels;
#[cfg(test)]
mod leases;
#[cfg(test)]
mod pairs;
#[cfg(test)]
mod turns;
#[cfg(test)]
mod views;
