//! The steps of puts, gets and deletes of one shard, each under its locks, over any value that may be a directory, a series or
//! a journal. They know nothing of a device: so they need not wait until it is proved.
//!
//! A call takes the directory for the look-up alone, gives it back, and takes the series; so that no lock is held longer than
//! its part of the work. The series may be deleted and its slot used again before it is taken: the call compares its key, and
//! where it differs it looks up again and keeps the directory, so that the second try decides.
//!
//! - `kinds`: what a value of an object may be.
//! - `parts`, `held`: objects taken, and given back, as what their numbers say.
//! - `pause`: the pause of a get, which is called in one place and counted by the pass.
//! - `reads`, `puts`, `begins`: what a call does under its locks.
//! - `wide`, `floors`, `seals`: the Floor of a finish and the Seal of one series, over a device that the pass holds.
//! - `get`, `try_get`, `del`, `put`: the four calls, and the steps of a get and of a put.
#![tactic(auto)]

mod begins;
mod dels;
mod floors;
mod gets;
mod held;
mod kinds;
mod parts;
mod pause;
mod put_call;
mod puts;
mod reads;
mod seals;
mod tries;
mod wide;

pub use dels::{DelAnswer, DelFault, DelReply, del};
pub use floors::{FloorAnswer, FloorReply, make_floor};
pub use gets::{GetAnswer, GetFault, GetReply, get, look_up, read_again, read_at, reply};
pub use kinds::Parts;
pub use put_call::{new_point, put, put_again};
pub use puts::{NewPoint, PutAnswer, PutFault, PutReply, put_at};
pub use reads::{Found, Lookup, Read, Wanted};
pub use seals::{SealReply, seal_one};
pub use tries::{TryFault, try_get};
pub use wide::{Wide, give_wide, take_wide};
