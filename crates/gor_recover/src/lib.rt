//! How the disk of a shard is read: its files become the map that they stand for, or the first damage that they meet.
//!
//! What the files mean is said by `gor_image`; this crate reads them whole, one after another, and writes nothing.
//!
//! - `recovering`: a disk is recovered. `recovered`: what an opening recovers, and why it may not.
//! - `files`: the files of a shard, each read whole from its disk into records and given up.
//! - `marks`, `keys`, `batches`, `blocks`: records of the bytes of one kind of file each, and what must rise in them.
//! - `records`: records as they are read, with their places; `file_fault`: why bytes are not read as records.
//! - `gathering`: the files that the marks name, gathered; `base`: what the last mark says of them; `blocks_read` and
//!   `logs_read`: the live block files and the remaining logs, one after another.
//! - `gather`, `series`: the points of each series in one pass; `logs`, `ranges`: what logs say besides, and the numbers that
//!   their batches cover.
//! - `restore`: what was gathered becomes the map; `names`, `naming`: which name has which slot; `rows`: the series by slot.
#![tactic(auto)]

mod base;
mod batches;
mod blocks;
mod blocks_read;
mod file_fault;
mod files;
mod gather;
mod gathering;
mod keys;
mod logs;
mod logs_read;
mod marks;
mod names;
mod naming;
mod ranges;
mod records;
mod recovered;
mod recovering;
mod restore;
mod rows;
mod series;

pub use recovered::{LogTop, OpenFault, Recovered, RecoveredRow};
pub use recovering::recover;
