//! Key lists: which series began and ended, and which stand since the last finish.
//!
//! A body of a key list is a version and records. The version says in which unit the floors are.
//!
//! - `record`: the records.
//! - `writing`: the one spelling of a list of records.
//! - `reading`: the records that a body spells, or the body's first fault.
#![tactic(auto)]

mod reading;
mod record;
mod writing;

pub use gor_fields::FieldFault as KeyFault;
pub use reading::read_keys;
pub use record::{KeyBody, KeyRecord};
pub use writing::write_keys;
