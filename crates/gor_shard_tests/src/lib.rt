//! Tests of a shard by its public calls: puts, gets and deletes of its lanes, the pause of a get, the values that it opens with,
//! and the small client of its table. A crate with tests is proved twice, so those of several crates stand together here.
//!
//! - `shard`: a shard of two slots on an empty disk, and the passes of its two lanes.
//! - `steps`: a call on a shard with the answer that is wanted, as data.
//! - `points`: lists of such steps.
//! - `held`: a get that waits for nobody, while another pass holds the directory.
//! - `pauses`: where a get pauses.
//! - `slots`: a slot that is used again between the steps of a call.
//! - `silent`, `rows`, `values`: the values of a shard, from rows that were recovered.
//! - `plain`: the small client of the table, with many lanes in threads.
#![tactic(auto)]

#[cfg(test)]
mod held;
#[cfg(test)]
mod pauses;
#[cfg(test)]
mod plain;
#[cfg(test)]
mod points;
#[cfg(test)]
mod rows;
#[cfg(test)]
mod shard;
#[cfg(test)]
mod silent;
#[cfg(test)]
mod slots;
#[cfg(test)]
mod steps;
#[cfg(test)]
mod values;
