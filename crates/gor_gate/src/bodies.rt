//! What reading a gated file gives.
use thiserror::Error;

/// A body of a gated file.
#[derive(Drop)]
pub struct Body {
    /// The place of its gate, in bytes from the start of the file; the body itself starts nine bytes behind.
    pub at: u64,
    /// The body.
    pub bytes: Vec<u8>,
}

/// Why a gated file was not read.
#[derive(Clone, Copy, Debug, PartialEq, Eq, Error)]
pub enum GateFault {
    /// The file ends within the length or the body behind the open gate at this place. It comes exactly where the file's
    /// bytes are so, unless memory was wanting or the disk failed.
    #[error("the file ends within the body behind the gate at {at}")]
    Cut {
        /// The place of the gate, in bytes from the start of the file.
        at: u64,
    },
    /// The disk failed. It comes only where the disk's count of faults rose.
    #[error("the file could not be read")]
    ReadFailed,
    /// Memory was wanting.
    #[error("no memory")]
    NoMemory,
}
