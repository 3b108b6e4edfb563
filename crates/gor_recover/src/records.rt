//! Records as they are read, with their places.
use gor_keys::KeyRecord;
use gor_log::LogRecord;
use gor_model::Points;

/// A record of a key list, and the place of its kind byte in the file, in bytes.
#[derive(Drop)]
pub(crate) struct PlacedKey {
    pub at: u64,
    pub it: KeyRecord,
}

/// A record of a log, and the place of its time in the file, in bytes.
#[derive(Drop)]
pub(crate) struct PlacedLog {
    pub at: u64,
    pub it: LogRecord,
}

/// A batch of the log of this number.
#[derive(Drop)]
pub(crate) struct LogPart {
    pub log: u32,
    pub first: u64,
    pub last: u64,
    pub records: Vec<PlacedLog>,
}

/// A row of the block file of this window, its place in the file, and the points of its block.
#[derive(Drop)]
pub(crate) struct BlockPart {
    pub file: u32,
    pub at: u64,
    pub uid: u64,
    pub window: u32,
    pub points: Points,
}
