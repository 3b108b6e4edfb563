//! Where the bytes of a run come from and where they go, by what a caller may know of them.
//!
//! `Source` and `Sink` say when a failure may be answered and what a call does to the bytes that are known. `MemorySource`
//! and `MemorySink` are the forms that tests and tools use: what they give and hold is known to contracts. `Pause` is what a
//! read does while it holds its series: nothing, but in a test.
#![tactic(auto)]

pub mod pause;
pub mod sink;
pub mod source;

pub use pause::{NoPause, Pause};
pub use sink::{MemorySink, Sink};
pub use source::{Failed, MemorySource, Source};
