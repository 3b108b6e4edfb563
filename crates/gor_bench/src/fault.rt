//! Why nothing was measured.
use std::alloc::{AllocError, AllocFailed};

/// Why nothing was measured, or not all.
#[derive(Drop, Clone, Copy)]
pub enum Fault {
    /// A word names no part.
    Words,
    /// There was no memory.
    Memory,
    /// The clock could not be read.
    Clock,
    /// The figures could not be written.
    Output,
    /// What was read back is not what was written, or an event is missing.
    Wrong,
    /// The disk of a store failed.
    Disk,
}

impl Fault {
    /// The number with which the process ends, and what it says.
    pub fn told(self) -> (u8, &'static str) {
        match self {
            Fault::Words => (
                2,
                "usage: gor_bench [codes|blocks|cell|table|shard|store|recovery]...",
            ),
            Fault::Memory => (4, "no memory"),
            Fault::Clock => (5, "the clock could not be read"),
            Fault::Output => (6, "the figures could not be written"),
            Fault::Wrong => (7, "what was measured is not what was asked for"),
            Fault::Disk => (8, "the disk failed"),
        }
    }
}

impl From<AllocError> for Fault {
    fn from(_: AllocError) -> Fault {
        Fault::Memory
    }
}

impl<T: Drop> From<AllocFailed<T>> for Fault {
    fn from(_: AllocFailed<T>) -> Fault {
        Fault::Memory
    }
}
