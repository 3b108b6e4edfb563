//! Names of series, their keys and their shards.
//!
//! A name is a text of 1 to 255 bytes with no blank and no control byte. Its key is its default case folding, so that two
//! spellings that differ in case alone are one series. Its shard is a hash of the key.
#![tactic(auto)]

mod keyed_name;
mod name;

pub use keyed_name::KeyedName;
pub use name::{Name, NameFault};
