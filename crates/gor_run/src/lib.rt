//! The two top calls: a workload is run on a shard, or what the files of a shard hold is written.
//!
//! - `program`: `run`, with the headline; `serving` runs the phases on an open store, writes their answers and ends the store.
//! - `dumping`: `dump`; `dump_text` makes its text.
//! - `words`: which command the words are.
//! - `input`, `reading`, `taken_lines`: the input to its end, and the workload that it says.
//! - `output`: a text is written whole, or a front of it.
//! - `status`, `outcome`: how a call ended, with its number and its words, and the disks that come back.
//!
//! The definitions stand in `specs/`: `Runs` and `Dumps` (what stands under each status of a call), `Serving` (what stands once
//! an open store was served), `Statuses`, `Words`, `Inputs`, `Outputs` and `TakenLines`.
#![tactic(auto)]

mod dump_text;
mod dumping;
mod input;
mod outcome;
mod output;
mod program;
mod reading;
mod serving;
mod status;
mod taken_lines;
mod words;

pub use dumping::dump;
pub use outcome::Outcome;
pub use program::run;
pub use status::Status;
