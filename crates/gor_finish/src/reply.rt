//! What a flush answers.
/// What a flush did. The numbers are those of its events in the shard's one history.
#[derive(Clone, Copy, Debug, PartialEq, Eq)]
pub enum FlushReply {
    /// The changes since the last Take, `taken` of them, are on the disk, and with them all `changes` since the opening.
    Flushed {
        take: u64,
        taken: u64,
        done: u64,
        changes: u64,
    },
    /// The shard was stopped before its Take.
    Stopped {
        number: u64,
    },
    /// The disk failed. The shard is stopped until it is opened again.
    Fault {
        take: u64,
        taken: u64,
        stop: u64,
    },
}
