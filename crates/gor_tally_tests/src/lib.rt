//! Tests of tallies: points and the texts that are wanted, as data.
//!
//! - `feeding`: the four tallies over lists of a few points, in pages of several lengths.
//! - `refusing`: a tally that refuses memory at its second page.
#![tactic(auto)]

#[cfg(test)]
mod feeding;
#[cfg(test)]
mod refusing;
