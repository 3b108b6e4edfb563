//! Tests of merged lists: what is merged, and the one list that is wanted, as data.
//!
//! - `merging`: lists of a few points each, and sixteen lists that take turns.
#![tactic(auto)]

#[cfg(test)]
mod merging;
