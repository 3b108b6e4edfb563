//! A store of shards: the values of a shard's objects from what its opening recovered, and what the lanes of its phases did
//! as one history.
//!
//! - `shards`: a shard opened on its disk, and closed.
//! - `store`: a store of one shard among 16 disks: opened, run by phases, flushed and closed.
//! - `disks`, `passes`: the disks of a store, and the passes of its nine lanes, in their order.
//! - `values`: the values in the order of their numbers.
//! - `cells`: the series of the slots.
//! - `directory`: the directory.
//! - `lines`: each line of a lane is answered, and what it brought about is told.
//! - `lanes`: a lane waits until it has seen all events before its phase, and answers its lines in order.
//! - `phases`: the eight lanes of a phase beside each other, in threads.
//! - `laws`: the events that the lanes made phase by phase, by their numbers, are one history of their shard, and the lines
//!   print it; what the passes of a shard have done grows by phases, and is in the one history of their hall. And what stands
//!   once a shard has closed: its history, the images of its disk and its text.
//!
//! The definitions stand in `specs/`: `Series`, `Directories` and `Values` (the values and what they are made from), `Shards`
//! (a shard as it opens and closes), `Stories` (what the lanes did phase by phase, and the one history of it), `Works` (the
//! same of the passes of a shard, from their first event until the hall closes), `WorkedStory` (an example), `Lines`, `Lanes`
//! and `Phases` (what a line brought about, and what a lane and all lanes did in a phase), `Stores` (a store between two calls,
//! and what each call does to it), `Closings` (the events of a last flush) and `Sessions` (a shard from the moment at which its
//! disk was handed in until it comes back).
#![tactic(auto)]

mod cells;
mod directory;
mod disks;
mod lanes;
pub mod laws;
mod lines;
mod passes;
mod phases;
mod shards;
mod store;
mod values;

pub use lanes::run_lane;
pub use shards::{OpenShard, close_shard, open_shard};
pub use store::{NotStored, Store};
pub use values::values_of;
