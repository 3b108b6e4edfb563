//! What the files of a shard mean: what an image of its disk recovers to, what state it holds, and when it is fit to be
//! written on.
//!
//! An image is the bytes of each file of a shard's disk, as a crash may leave them. What it recovers to is a function of
//! these bytes, which reads gated files through their lists of bodies alone; so what leaves the lists as they were leaves
//! the map as it was. The function is a chain of checks, of which the first that fails is the answer, over a part that says
//! what the records mean where nothing is wrong with them.
//!
//! - `fault`: what may be wrong with an image.
//! - `laws`: what appends may rely on. A body behind the current key list, and one behind the current log, go on from the
//!   state that the image holds by exactly the changes that they spell; key records that no batch covers change nothing.
//! - `finish_laws`: what a finish may rely on. Its new files are read as what they spell, and of the old ones what is kept stays.
//!
//! The definitions stand in `specs/`: `Records` and `Recovery` (the meaning of records that are in order), `Grammars` and
//! `Blocks` (bodies and block files as records with their places), `Images` (the chain of checks), `Holding` and `Fit`
//! (what an image holds, and when it is fit to be written on), `MarkLists` (which mark may follow), and `ChangeRecords` (the
//! records of changes). How a disk is read by these definitions is the crate `gor_recover`.
#![tactic(auto)]

mod fault;
pub mod finish_laws;
pub mod laws;

pub use fault::{DamageKind, ImageFault};
