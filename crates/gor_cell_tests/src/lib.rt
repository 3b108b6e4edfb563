//! Tests of the public calls of what two locks of a shard hold: the cell of a series, and the directory.
//!
//! - `cell`: lists of steps on a cell, each with what is wanted of it.
//! - `dir`: the same of a directory; a thousand names; and a start that is restored.
#![tactic(auto)]

#[cfg(test)]
mod cell;
#[cfg(test)]
mod dir;
