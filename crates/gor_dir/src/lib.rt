//! The directory of a shard: which series are there, in which slots, which slots are free, and the shard's floor.
//!
//! A directory is what the directory's lock of a shard holds. It maps the key of each series that is there to the spelling
//! that is shown, the slot and the uid, and hands out free slots: the one that was released last, then those that no series
//! has had, rising.
//!
//! - `directory`: the directory and its calls.
//! - `row`: a row of it, as it is handed out.
//! - `rows`: the rows that are kept, by their keys.
//! - `pool`: the free slots.
#![tactic(auto)]

mod directory;
mod pool;
mod row;
mod rows;

pub use directory::Directory;
pub use row::DirRow;
