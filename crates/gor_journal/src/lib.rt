//! The journal of a shard: the changes that wait for the next flush, as the bytes that they will be.
//!
//! A journal is what the journal's lock of a shard holds. Each change is written once, when it is made: what belongs into
//! the key list and what belongs into the log, each behind the place of its body's length. A flush takes both bodies by a
//! swap, and neither the writing of a change nor the taking needs memory.
//!
//! - `journal`: the journal and its calls.
//! - `buffers`: what a flush takes.
//! - `entry`: what a change adds.
//! - `writing`: the spelling of records in room that is there.
#![tactic(auto)]

mod buffers;
mod entry;
mod journal;
mod writing;

pub use buffers::Buffers;
pub use entry::Entry;
pub use journal::Journal;
