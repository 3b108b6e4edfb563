//! Blocks: the points of one window, as bits.
//!
//! A [`Block`] holds points of one unit and one window of two hours, whose times rise strictly. Clauses see its unit, its
//! window, the list of its points with the oldest first, and its room; its bits are always the code of these points. A
//! push writes behind the bits, by what the points so far leave for the next one.
//!
//! - `block`: [`Block`], with its calls.
//! - `running`: what the points of a block so far leave for the next one.
//! - `reading`: the points of some bits, one after another.
//! - `bytes`: a block's one list of bytes, and the block of some bytes.
//! - `fault`: [`BlockFault`], why bytes are no block.
//! - `laws`: that points and bits determine each other.
#![tactic(auto)]

mod block;
mod bytes;
mod fault;
pub mod laws;
mod reading;
mod running;

pub use block::Block;
pub use fault::BlockFault;
