//! The two buffers of a journal: key records and log records that wait.
ghost use Rattle.std.specs.Prelude.{◌≡◌};
ghost use Rattle.gor_journal.specs.Bodies.{AreEmpty};

use std::alloc::Global;

/// What a flush writes: a body of the key list and a body of the log.
///
/// A body stands behind eight bytes that are kept for its length, and its list has room for one byte more. A list is empty
/// where there is no body: `keys` where no series began or ended, `log` where there are no changes.
#[derive(Drop)]
pub struct Buffers {
    pub keys: Vec<u8>,
    pub log: Vec<u8>,
    /// The number of the first change, where there are any.
    pub first: u64,
    /// The number of the last change, where there are any.
    pub last: u64,
    /// How many changes there are.
    pub changes: u64,
    /// The greatest window of the puts; None exactly where there are none.
    pub top: Option<u32>,
}

impl Buffers {
    /// No changes. It takes no memory.
    pub fn new(alloc: Global) -> Buffers
        ensures { AreEmpty result }
    {
        Buffers {
            keys: Vec::new(alloc),
            log: Vec::new(alloc),
            first: 0,
            last: 0,
            changes: 0,
            top: None,
        }
    }
}
