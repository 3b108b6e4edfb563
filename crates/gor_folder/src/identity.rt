//! Which file of the system a path or an open file names.
use std::fs::Metadata;
use std::os::unix::fs::MetadataExt;

/// A file of the system, as the system tells files apart.
#[derive(Clone, Copy, PartialEq, Eq)]
pub struct Identity {
    device: u64,
    node: u64,
}

impl Identity {
    /// Of which file something is known.
    pub fn of(found: &Metadata) -> Identity {
        Identity {
            device: found.dev(),
            node: found.ino(),
        }
    }
}
