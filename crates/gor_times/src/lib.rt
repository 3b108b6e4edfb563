//! The time code of a block, both ways.
//!
//! - `state`: [`TimeState`], which writes and reads the times of a block one after another.
//! - `code`: [`write_code`] and [`read_code`], the code of a change alone.
//! - `change`: the five cases of the code.
//! - `fault`: [`TimeFault`], why no time stands at a place.
//!
//! A block's first time stands as its place in the window, in 14 bits for seconds and 24 for milliseconds; each later one
//! as the change of its difference, after section 4.1 of Pelkonen et al., "Gorilla: A Fast, Scalable, In-Memory Time
//! Series Database", VLDB 2015. The prefixes and ranges of the cases are this project's own.
#![tactic(auto)]

mod change;
mod code;
mod fault;
mod state;

pub use code::{read_code, write_code};
pub use fault::TimeFault;
pub use state::TimeState;
