//! Marks: what a shard writes of its home and of each window that it has sealed.
//!
//! A mark is the body of an entry of the file `marks`. The first mark says which shard the files are of, and each later one
//! that a window is sealed and which key list and logs hold since then.
//!
//! - `mark`: the marks.
//! - `writing`: a mark's one spelling.
//! - `reading`: the mark that a body spells, or the body's first fault.
#![tactic(auto)]

mod mark;
mod reading;
mod writing;

pub use gor_fields::FieldFault as MarkFault;
pub use mark::Mark;
pub use reading::read_mark;
pub use writing::write_mark;
