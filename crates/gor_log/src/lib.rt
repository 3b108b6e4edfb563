//! Logs: the changes of a shard since its last finish, a batch at a time.
//!
//! A body of a log is one batch: a version, the numbers of its first and its last change, and records. A change that needs
//! no record here, as a delete, has a number all the same.
//!
//! - `record`: batches and their records.
//! - `writing`: the one spelling of a batch.
//! - `reading`: the batch that a body spells, or the body's first fault.
#![tactic(auto)]

mod reading;
mod record;
mod writing;

pub use gor_fields::FieldFault as LogFault;
pub use reading::read_log;
pub use record::{LogBatch, LogRecord};
pub use writing::write_log;
