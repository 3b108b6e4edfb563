//! The files that a finish of a window writes beside those of the store, and the mark that turns the store over to them.
//!
//! A finish moves a window from the logs into a block file, and begins a new key list and a new log. No mark names these files
//! while they are written, so they change nothing of what a disk means, also where a crash or a failure leaves a part of them.
//! The mark is appended last, and from then on the new files are read in the place of the old ones.
//!
//! Files of these names may be there already, from an earlier finish that did not come to its mark: each is cut to nothing
//! first. No call takes memory.
//!
//! - `files`: the block file, the key list and the log.
//! - `marking`: the mark.
#![tactic(auto)]

mod files;
mod marking;

pub use files::{begin_log, write_blocks, write_keys_file};
pub use marking::write_mark_file;
