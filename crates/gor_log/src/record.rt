//! The records of a log.
/// A record of a log. A uid is from 1 to 2^63 - 1, and a window at most 596,522.
#[derive(Clone, Copy, Debug, PartialEq, Eq)]
pub enum LogRecord {
    /// A point of a series. The time counts seconds since 1970-01-01 00:00:00 UTC and is at most 4,294,965,599.
    Put { uid: u64, time: u64, word: u64 },
    /// The shard's floor rose to the end of a window.
    Floor { window: u32 },
    /// A series was sealed up to the end of a window.
    Seal { uid: u64, window: u32 },
}

/// The changes `first` to `last`, in order: `1 <= first <= last <= 2^63 - 1`.
#[derive(Drop)]
pub struct LogBatch {
    /// In which form the records are spelled. Form 1 is the only one so far.
    pub version: u8,
    pub first: u64,
    pub last: u64,
    pub records: Vec<LogRecord>,
}
