//! Tests of searches over stored segments: the counts of drill-sideways, found in one pass for all dimensions, compared
//! with one pass for each dimension.
#![tactic(auto)]

#[cfg(test)]
mod draws;
#[cfg(test)]
mod making;
#[cfg(test)]
mod near_misses;
#[cfg(test)]
mod records;
#[cfg(test)]
mod sideways_counts;
#[cfg(test)]
mod thinned;
