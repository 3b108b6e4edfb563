//! Block files: the sealed blocks of a shard, as one finish writes them.
//!
//! A block file is a header of 24 bytes, slabs of 65,536 bytes, and a row of 24 bytes for each block. The blocks stand end
//! to end, across the borders of slabs, and the rest of the last slab is zero. The header says in which unit the times of
//! the blocks are. What the bytes of a block mean is not looked at here.
//!
//! - `row`: rows and the index that they make.
//! - `writing`: the one spelling of a list of blocks.
//! - `reading`: the index that a file spells, or the file's first fault.
#![tactic(auto)]

mod reading;
mod row;
mod writing;

pub use gor_fields::FieldFault as SlabFault;
pub use reading::{block_at, read_index};
pub use row::{SlabIndex, SlabRow};
pub use writing::SlabWriter;
