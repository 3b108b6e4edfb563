//! What the last mark says of the other files.
ghost use Rattle.std.specs.Prelude.{◌≡◌, ◌<◌, ℕ, length, IfOk};
ghost use Rattle.gor_image.specs.MarkLists.{AreMarksOrNone};
ghost use Rattle.gor_recover.specs.StoreReads.{IsBasedOn, told_by, live_from};

use gor_marks::Mark;
use std::alloc::{AllocError, Global};

/// What the last mark says of the other files.
#[derive(Clone, Copy)]
pub(crate) struct Based {
    /// The window of the last mark, if one is sealed.
    pub window: Option<u32>,
    /// The last change number before it; 0 where none is sealed.
    pub upto: u64,
    /// The number of the current key list and of the current log.
    pub current: u32,
    /// The number of the first log that remains.
    pub first_log: u32,
}

/// What a mark says that is the last.
fn told_by(mark: &Mark) -> Based
    ensures { result ≡ told_by mark.now }
{
    match mark {
        Mark::Home { .. } => Based {
            window: None,
            upto: 0,
            current: 0,
            first_log: 0,
        },
        Mark::Sealed {
            window,
            keys,
            upto,
            first_log,
        } => Based {
            window: Some(*window),
            upto: *upto,
            current: *keys,
            first_log: *first_log,
        },
    }
}

/// What some marks say of the other files, of which the last decides.
pub(crate) fn based_on(marks: &[Mark]) -> Based
    requires some { 0 < length marks.now }
    ensures { (shards shard : ℕ) → AreMarksOrNone shards shard marks.now → IsBasedOn marks.now result }
{
    told_by(&marks[marks.len() - 1])
}

/// The windows of the live block files, rising: those of the last twelve windows up to `last`.
pub(crate) fn live_windows(alloc: Global, marks: &[Mark], last: u32) -> Result<Vec<u32>, AllocError>
    ensures { IfOk result (λ windows. windows.items ≡ live_from last marks.now) }
{
    let mut windows = Vec::new(alloc);
    for mark in marks {
        if let Mark::Sealed { window, .. } = mark {
            if u64::from(last) < u64::from(*window) + 12 {
                windows.push(*window)?;
            }
        }
    }
    Ok(windows)
}
