//! Merged lists: the points of some lists as one list, by time and then by the place of their list.
//!
//! - `merging`: [`merge`], the one call.
//! - `tournament`: which of the lists' next points comes first.
//! - `laws`: that lists are merged in one way, and that what gets give may be merged.
//!
//! What a merged list is, `IsMerged`, stands in `gor_model`.
#![tactic(auto)]

pub mod laws;
mod merging;
mod tournament;

pub use merging::merge;
