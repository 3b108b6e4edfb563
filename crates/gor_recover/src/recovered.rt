//! What an opening recovers, and why it may not.
use gor_image::ImageFault;
use gor_marks::Mark;
use gor_model::Points;
use gor_name::Name;

/// A series as it was recovered.
#[derive(Drop)]
pub struct RecoveredRow {
    /// The spelling that is shown.
    pub name: Name,
    /// Its slot, below the count of slots that was given.
    pub slot: u32,
    /// The number of the change that began it.
    pub uid: u64,
    /// Its floor, a time in the store's unit.
    pub floor: u64,
    /// Its kept points, the oldest first.
    pub points: Points,
}

/// A log that remains, with the greatest window of its puts; `None` where it has none.
#[derive(Drop)]
pub struct LogTop {
    pub log: u32,
    pub top: Option<u32>,
}

/// The map that a shard's files stand for, and what its device goes on from.
#[derive(Drop)]
pub struct Recovered {
    /// Whether there is no mark, so that the map is empty and nothing else was read.
    pub fresh: bool,
    /// The shard's floor, a time in the store's unit.
    pub floor: u64,
    /// The next change number, from 1 to 2^62.
    pub next: u64,
    /// The marks in order.
    pub marks: Vec<Mark>,
    /// The logs that remain, by rising number. On a fresh shard it is log 0, without a put.
    pub tops: Vec<LogTop>,
    /// The series by rising slot.
    pub rows: Vec<RecoveredRow>,
}

/// Why a shard was not opened.
#[derive(Clone, Copy, Debug, PartialEq, Eq)]
pub enum OpenFault {
    /// What its disk holds is refused.
    Image(ImageFault),
    /// The disk failed. It comes only where its count of faults rose.
    Disk,
    /// Memory is wanting.
    NoMemory,
}
