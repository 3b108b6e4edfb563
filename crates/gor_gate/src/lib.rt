//! Gated files: lists of bodies that a crash leaves as they were, or with one body more.
//!
//! A gated file is a row of bodies, each behind a gate byte 1 and its length in eight bytes, the highest byte first.
//! Another byte in the place of a gate, or the end of the file, ends the list, and what stands behind it is passed over.
//! An append writes behind the shut gate at the end of the list, and opens that gate once all of it is stable; so at each
//! moment a crash leaves the old list, or it and the body. The format is this project's own.
//!
//! - `bodies`: what reading a gated file gives, and why it may not.
//! - `frames`: a body that is being made, with the room that an append needs around it.
//! - `gated`: a gated file that was read, its end made sure, and bodies added to it.
//! - `fresh`: a gated file that is empty, and its first body.
//! - `reading`, `parsing`: the list of a file's bytes.
//! - `appending`: the device calls of an append and of a shut gate.
#![tactic(auto)]

mod appending;
mod bodies;
mod frames;
mod fresh;
mod gated;
mod parsing;
mod reading;

pub use bodies::{Body, GateFault};
pub use frames::Frame;
pub use gated::Gated;
pub use reading::read_all;
