//! A ring of twelve places: a map from twelve windows, one after another, to items.
//!
//! A series keeps the sealed blocks of its last day in one. The windows are `first` to `first + 11`, and `first` only rises;
//! what stands below a new `first` is dropped. The places lie in the value itself, so no call takes memory.
//!
//! The definitions that clauses cite stand in `specs/Places.antt`.
#![tactic(auto)]

mod ring;

pub use ring::Ring;
