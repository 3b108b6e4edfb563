//! What is done with a shard as a whole by one pass: a flush.
#![tactic(auto)]

mod events;
mod flushing;
mod parts;
mod reply;

pub use flushing::flush;
pub use reply::FlushReply;
