//! Puts, gets and deletes of one shard, each exactly one event of its one history.
//!
//! A call takes the directory for the look-up alone, gives it back, and takes the series; so that no lock is held longer than
//! its part of the work. The series may be deleted and its slot used again before it is taken: the call compares its key, and
//! where it differs it looks up again and keeps the directory, so that the second try decides.
//!
//! The steps stand in `gor_steps`, which knows nothing of a disk. Here they are those of a shard of `Part`s.
//!
//! - `kinds`: which of its parts are the directory, a series and the journal.
//! - `calls`: `get`, `try_get`, `del`, `put`.
#![tactic(auto)]

mod calls;
mod kinds;

pub use calls::{del, get, put, try_get};
pub use gor_steps::{
    DelAnswer, DelFault, DelReply, GetAnswer, GetFault, GetReply, PutAnswer, PutFault, PutReply,
    TryFault,
};
pub use kinds::{OfShard, Shard};
