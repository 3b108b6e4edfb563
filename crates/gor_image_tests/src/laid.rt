//! Files, and how they are laid on a disk in memory.

ghost use Rattle.std.specs.Prelude.{◌≤◌};
ghost use Rattle.gor_model.specs.Windows.{last_window};

use gor_disk::{Disk, FileId, MemoryDisk};
use gor_model::Unit;
use gor_slab::SlabWriter;
use std::alloc::{AllocError, Global};

/// The marks of a store with one point: change 1 begins `a` in slot 0, with the word 1 at the time 10.
pub(crate) static MARKS: [u8; 20] = [1, 0, 0, 0, 0, 0, 0, 0, 10, 1, 1, 0, 0, 0, 1, 0, 0, 0, 0, 0];

/// Its key list.
pub(crate) static KEYS: [u8; 30] = [
    1, 0, 0, 0, 0, 0, 0, 0, 20, 1, 1, 0, 0, 0, 0, 0, 0, 0, 1, 0, 0, 0, 0, 0, 0, 0, 0, 1, 97, 0,
];

/// Its log.
pub(crate) static LOG: [u8; 48] = [
    1, 0, 0, 0, 0, 0, 0, 0, 38, 1, 0, 0, 0, 0, 0, 0, 0, 1, 0, 0, 0, 0, 0, 0, 0, 1, 1, 0, 0, 0, 0,
    0, 0, 0, 1, 0, 0, 0, 10, 0, 0, 0, 0, 0, 0, 0, 1, 0,
];

/// A home, and the windows 5 and 6 sealed.
pub(crate) static SEALED: [u8; 82] = [
    1, 0, 0, 0, 0, 0, 0, 0, 10, 1, 1, 0, 0, 0, 1, 0, 0, 0, 0, 1, 0, 0, 0, 0, 0, 0, 0, 22, 1, 2, 0,
    0, 0, 5, 0, 0, 0, 1, 0, 0, 0, 0, 0, 0, 0, 7, 0, 0, 0, 1, 1, 0, 0, 0, 0, 0, 0, 0, 22, 1, 2, 0,
    0, 0, 6, 0, 0, 0, 2, 0, 0, 0, 0, 0, 0, 0, 7, 0, 0, 0, 1, 0,
];

/// The series `a` and `b` that stood in slots 0 and 1, and behind them change 9, which deletes the second.
pub(crate) static LIVES: [u8; 72] = [
    1, 0, 0, 0, 0, 0, 0, 0, 39, 1, 3, 0, 0, 0, 0, 0, 0, 0, 1, 0, 0, 0, 0, 0, 0, 0, 0, 1, 97, 3, 0,
    0, 0, 0, 0, 0, 0, 2, 0, 0, 0, 1, 0, 0, 0, 0, 1, 98, 1, 0, 0, 0, 0, 0, 0, 0, 14, 1, 2, 0, 0, 0,
    0, 0, 0, 0, 9, 0, 0, 0, 1, 0,
];

/// A batch of change 1 with a point, and one of change 2 without a record.
pub(crate) static LOGS: [u8; 74] = [
    1, 0, 0, 0, 0, 0, 0, 0, 38, 1, 0, 0, 0, 0, 0, 0, 0, 1, 0, 0, 0, 0, 0, 0, 0, 1, 1, 0, 0, 0, 0,
    0, 0, 0, 1, 0, 0, 0, 10, 0, 0, 0, 0, 0, 0, 0, 1, 1, 0, 0, 0, 0, 0, 0, 0, 17, 1, 0, 0, 0, 0, 0,
    0, 0, 2, 0, 0, 0, 0, 0, 0, 0, 2, 0,
];

/// A home, and the window 198,217 sealed after change 8; log 0 remains.
pub(crate) static SEALED_ONCE: [u8; 51] = [
    1, 0, 0, 0, 0, 0, 0, 0, 10, 1, 1, 0, 0, 0, 1, 0, 0, 0, 0, 1, 0, 0, 0, 0, 0, 0, 0, 22, 1, 2, 0,
    3, 6, 73, 0, 0, 0, 1, 0, 0, 0, 0, 0, 0, 0, 8, 0, 0, 0, 0, 0,
];

/// A home, and the windows 198,216 and 198,217 sealed after change 8; log 1 remains.
pub(crate) static SEALED_TWICE: [u8; 82] = [
    1, 0, 0, 0, 0, 0, 0, 0, 10, 1, 1, 0, 0, 0, 1, 0, 0, 0, 0, 1, 0, 0, 0, 0, 0, 0, 0, 22, 1, 2, 0,
    3, 6, 72, 0, 0, 0, 1, 0, 0, 0, 0, 0, 0, 0, 8, 0, 0, 0, 0, 1, 0, 0, 0, 0, 0, 0, 0, 22, 1, 2, 0,
    3, 6, 73, 0, 0, 0, 2, 0, 0, 0, 0, 0, 0, 0, 8, 0, 0, 0, 1, 0,
];

/// The series `a` that stood in slot 0.
pub(crate) static LIVE: [u8; 30] = [
    1, 0, 0, 0, 0, 0, 0, 0, 20, 1, 3, 0, 0, 0, 0, 0, 0, 0, 1, 0, 0, 0, 0, 0, 0, 0, 0, 1, 97, 0,
];

/// A block file without a block.
pub(crate) static NO_BLOCKS: [u8; 24] = [
    71, 79, 82, 66, 0, 0, 0, 1, 0, 0, 0, 0, 0, 0, 0, 0, 0, 0, 0, 0, 0, 0, 0, 0,
];

/// `a`, `b` and `c` of a shard of two slots: change 3 deletes `a` from slot 0, in which `c` begins with change 4.
pub(crate) static USED_KEYS: [u8; 81] = [
    1, 0, 0, 0, 0, 0, 0, 0, 71, 1, 1, 0, 0, 0, 0, 0, 0, 0, 1, 0, 0, 0, 0, 0, 0, 0, 0, 1, 97, 1, 0,
    0, 0, 0, 0, 0, 0, 2, 0, 0, 0, 1, 0, 0, 0, 0, 1, 98, 2, 0, 0, 0, 0, 0, 0, 0, 3, 0, 0, 0, 0, 1,
    0, 0, 0, 0, 0, 0, 0, 4, 0, 0, 0, 0, 0, 0, 0, 0, 1, 99, 0,
];

/// A batch of these changes, with a put of each series.
pub(crate) static USED_LOG: [u8; 90] = [
    1, 0, 0, 0, 0, 0, 0, 0, 80, 1, 0, 0, 0, 0, 0, 0, 0, 1, 0, 0, 0, 0, 0, 0, 0, 4, 1, 0, 0, 0, 0,
    0, 0, 0, 1, 0, 0, 0, 10, 0, 0, 0, 0, 0, 0, 0, 1, 1, 0, 0, 0, 0, 0, 0, 0, 2, 0, 0, 0, 10, 0, 0,
    0, 0, 0, 0, 0, 2, 1, 0, 0, 0, 0, 0, 0, 0, 4, 0, 0, 0, 10, 0, 0, 0, 0, 0, 0, 0, 3, 0,
];

/// The changes 1 to 3 begin `a`, `b` and `c`, in slots 0 to 2.
pub(crate) static THREE_SERIES: [u8; 68] = [
    1, 0, 0, 0, 0, 0, 0, 0, 58, 1, 1, 0, 0, 0, 0, 0, 0, 0, 1, 0, 0, 0, 0, 0, 0, 0, 0, 1, 97, 1, 0,
    0, 0, 0, 0, 0, 0, 2, 0, 0, 0, 1, 0, 0, 0, 0, 1, 98, 1, 0, 0, 0, 0, 0, 0, 0, 3, 0, 0, 0, 2, 0,
    0, 0, 0, 1, 99, 0,
];

/// The key record of change 1, and in another body that of change 2, which begins `b` in slot 1.
pub(crate) static TWO_BODIES: [u8; 59] = [
    1, 0, 0, 0, 0, 0, 0, 0, 20, 1, 1, 0, 0, 0, 0, 0, 0, 0, 1, 0, 0, 0, 0, 0, 0, 0, 0, 1, 97, 1, 0,
    0, 0, 0, 0, 0, 0, 20, 1, 1, 0, 0, 0, 0, 0, 0, 0, 2, 0, 0, 0, 1, 0, 0, 0, 0, 1, 98, 0,
];

/// The log of a crash while the batch of change 2 was written behind a gate that is still shut.
pub(crate) static SHUT_LOG: [u8; 61] = [
    1, 0, 0, 0, 0, 0, 0, 0, 38, 1, 0, 0, 0, 0, 0, 0, 0, 1, 0, 0, 0, 0, 0, 0, 0, 1, 1, 0, 0, 0, 0,
    0, 0, 0, 1, 0, 0, 0, 10, 0, 0, 0, 0, 0, 0, 0, 1, 0, 0, 0, 0, 0, 0, 0, 0, 38, 1, 0, 0, 0, 0,
];

/// The worked log without the gate that ends its list.
pub(crate) static OPEN_LOG: [u8; 47] = [
    1, 0, 0, 0, 0, 0, 0, 0, 38, 1, 0, 0, 0, 0, 0, 0, 0, 1, 0, 0, 0, 0, 0, 0, 0, 1, 1, 0, 0, 0, 0,
    0, 0, 0, 1, 0, 0, 0, 10, 0, 0, 0, 0, 0, 0, 0, 1,
];

/// The worked log, cut within its batch.
pub(crate) static CUT_LOG: [u8; 30] = [
    1, 0, 0, 0, 0, 0, 0, 0, 38, 1, 0, 0, 0, 0, 0, 0, 0, 1, 0, 0, 0, 0, 0, 0, 0, 1, 1, 0, 0, 0,
];

/// A key list with a second Create, of the change 2: in slot 0, of the name `b`.
pub(crate) static TWICE: [u8; 49] = [
    1, 0, 0, 0, 0, 0, 0, 0, 39, 1, 1, 0, 0, 0, 0, 0, 0, 0, 1, 0, 0, 0, 0, 0, 0, 0, 0, 1, 97, 1, 0,
    0, 0, 0, 0, 0, 0, 2, 0, 0, 0, 0, 0, 0, 0, 0, 1, 98, 0,
];

/// The changes 1 and 2 put at the same time.
pub(crate) static SAME_TIME: [u8; 69] = [
    1, 0, 0, 0, 0, 0, 0, 0, 59, 1, 0, 0, 0, 0, 0, 0, 0, 1, 0, 0, 0, 0, 0, 0, 0, 2, 1, 0, 0, 0, 0,
    0, 0, 0, 1, 0, 0, 0, 10, 0, 0, 0, 0, 0, 0, 0, 1, 1, 0, 0, 0, 0, 0, 0, 0, 1, 0, 0, 0, 10, 0, 0,
    0, 0, 0, 0, 0, 1, 0,
];

/// Change 1 begins `a` in slot 0; the changes 2 and 3 both delete it.
pub(crate) static DELETED_TWICE: [u8; 56] = [
    1, 0, 0, 0, 0, 0, 0, 0, 46, 1, 1, 0, 0, 0, 0, 0, 0, 0, 1, 0, 0, 0, 0, 0, 0, 0, 0, 1, 97, 2, 0,
    0, 0, 0, 0, 0, 0, 2, 0, 0, 0, 0, 2, 0, 0, 0, 0, 0, 0, 0, 3, 0, 0, 0, 0, 0,
];

/// Change 1 deletes what is not there.
pub(crate) static DELETED_FIRST: [u8; 24] = [
    1, 0, 0, 0, 0, 0, 0, 0, 14, 1, 2, 0, 0, 0, 0, 0, 0, 0, 1, 0, 0, 0, 0, 0,
];

/// The bytes of a file, by the name of the list above.
#[derive(Clone, Copy)]
pub(crate) enum Bytes {
    Nothing,
    Marks,
    Keys,
    Log,
    Sealed,
    Lives,
    Logs,
    SealedOnce,
    SealedTwice,
    Live,
    NoBlocks,
    UsedKeys,
    UsedLog,
    ThreeSeries,
    TwoBodies,
    ShutLog,
    OpenLog,
    CutLog,
    Twice,
    SameTime,
    DeletedTwice,
    DeletedFirst,
}

pub(crate) fn bytes_of(bytes: Bytes) -> &'static [u8] {
    match bytes {
        Bytes::Nothing => &[],
        Bytes::Marks => &MARKS,
        Bytes::Keys => &KEYS,
        Bytes::Log => &LOG,
        Bytes::Sealed => &SEALED,
        Bytes::Lives => &LIVES,
        Bytes::Logs => &LOGS,
        Bytes::SealedOnce => &SEALED_ONCE,
        Bytes::SealedTwice => &SEALED_TWICE,
        Bytes::Live => &LIVE,
        Bytes::NoBlocks => &NO_BLOCKS,
        Bytes::UsedKeys => &USED_KEYS,
        Bytes::UsedLog => &USED_LOG,
        Bytes::ThreeSeries => &THREE_SERIES,
        Bytes::TwoBodies => &TWO_BODIES,
        Bytes::ShutLog => &SHUT_LOG,
        Bytes::OpenLog => &OPEN_LOG,
        Bytes::CutLog => &CUT_LOG,
        Bytes::Twice => &TWICE,
        Bytes::SameTime => &SAME_TIME,
        Bytes::DeletedTwice => &DELETED_TWICE,
        Bytes::DeletedFirst => &DELETED_FIRST,
    }
}

/// Writes bytes from a place on that lies in the file; whether they are written.
pub(crate) fn write(disk: &mut MemoryDisk, file: FileId, at: u64, bytes: &[u8]) -> bool {
    match disk.len(file) {
        Ok(len) if at <= len => disk.write_at(file, at, bytes).is_ok(),
        _ => false,
    }
}

/// The block of three points in window 198,217, and that of window 198,216 whose points are as late in their window.
static BLOCK: [u8; 21] = [
    0, 3, 6, 73, 0, 0, 0, 3, 0, 249, 0, 160, 0, 0, 0, 0, 0, 2, 122, 107, 6,
];

static EARLIER_BLOCK: [u8; 21] = [
    0, 3, 6, 72, 0, 0, 0, 3, 0, 249, 0, 160, 0, 0, 0, 0, 0, 2, 122, 107, 6,
];

fn block_file(alloc: Global, window: u32, block: &[u8; 21]) -> Result<Vec<u8>, AllocError>
    requires { window ≤ last_window }
{
    let mut writer = SlabWriter::new(alloc, Unit::Second);
    writer.add(1, window, block)?;
    writer.finish()
}

/// A block file with one of these blocks, of uid 1.
pub(crate) fn one_block(alloc: Global, is_earlier: bool) -> Result<Vec<u8>, AllocError> {
    if is_earlier {
        block_file(alloc, 198_216, &EARLIER_BLOCK)
    } else {
        block_file(alloc, 198_217, &BLOCK)
    }
}
