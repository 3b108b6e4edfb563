//! What was asked of a disk.
use crate::FileId;

/// Which of the five calls of a disk.
#[derive(Clone, Copy, Debug, PartialEq, Eq)]
pub enum DiskKind {
    /// The length of a file.
    Len,
    /// A read.
    Read,
    /// A write.
    Write,
    /// A cut.
    Cut,
    /// A sync.
    Sync,
}

/// One call that was made of a disk.
#[derive(Clone, Copy, Debug, PartialEq, Eq)]
pub struct DiskCall {
    /// The file that it named.
    pub file: FileId,
    /// Which call it was.
    pub kind: DiskKind,
    /// The place of a read or a write, in bytes from the start of the file; 0 for the other calls.
    pub at: u64,
    /// The bytes that were to be read or written, or the length to which the file was to be cut; 0 for the other calls.
    pub len: u64,
    /// Whether it was answered `DiskFailed`.
    pub failed: bool,
}
