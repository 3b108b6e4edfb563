//! The word code of a block.
//!
//! - `state`: [`ValueState`], which writes and reads the words of a block one after another.
//! - `change`: what changed in a word, as it is read.
//! - `window`: the part of a changed word that a code stores.
//! - `fault`: [`ValueFault`], why no word stands at a place.
//!
//! A block's first word stands with its 64 bits, each later one as what changed in it, after section 4.1 of Pelkonen et
//! al., "Gorilla: A Fast, Scalable, In-Memory Time Series Database", VLDB 2015. The widths, the cap of 31 on `lead` and
//! the rules for the value window are this project's own.
#![tactic(auto)]

mod change;
mod fault;
mod state;
mod window;

pub use fault::ValueFault;
pub use state::ValueState;
