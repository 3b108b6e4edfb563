//! Fields of files: what the grammars of key lists, logs, marks, block files, blocks and gated files have alike.
//!
//! A field is a number of four or eight bytes, the highest byte first, or a piece of bytes. Here such fields are written
//! into room that is there, so that what a record needs is taken once, before its first byte. Numbers are read by
//! `gor_model`, which has the definitions too.
//!
//! - `room`: numbers and pieces of bytes put into room that is there.
//! - `field_fault`: why a body or a file could not be read, for every grammar.
#![tactic(auto)]

mod field_fault;
mod room;

pub use field_fault::{FieldFault, fault};
pub use room::{push_all, put_u32, put_u64};
