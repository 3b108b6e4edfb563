//! A row of a directory, as it is handed in when a shard is restored.
use gor_name::Name;

/// A series of a directory.
#[derive(Drop)]
pub struct DirRow {
    /// The spelling that is shown.
    pub name: Name,
    /// Its slot, below the count of slots.
    pub slot: u32,
    /// The number of the change that began it.
    pub uid: u64,
}
