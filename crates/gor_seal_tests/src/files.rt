//! The block file, the key list and the log of a finish, over what earlier finishes left in files of these names.
use crate::looks::{Wanted, are_calls, framed, holds, leaves};
use gor_disk::{Disk, DiskFailed, DiskKind, FileId, MemoryDisk};
use gor_seal::{begin_log, write_blocks, write_keys_file};
use std::alloc::{AllocError, Global};
use std::test::Fail;

/// Which call, with what it is given.
#[derive(Clone, Copy)]
enum Call {
    Blocks(u32, &'static [u8]),
    Keys(u32, &'static [u8]),
    Log(u32),
}

/// A call, its file, what an earlier finish left there, and the file and the calls of the disk that are wanted.
#[derive(Clone, Copy)]
struct Row {
    call: Call,
    file: FileId,
    stale: &'static [u8],
    want: &'static [u8],
    calls: &'static [Wanted],
}

const CUT: Wanted = (DiskKind::Cut, 0, 0);

const SYNC: Wanted = (DiskKind::Sync, 0, 0);

// The worked bytes: a Live record of the series "a" with uid 1 in slot 0, from the floor 0.
const LIVE: [u8; 20] = [1, 3, 0, 0, 0, 0, 0, 0, 0, 1, 0, 0, 0, 0, 0, 0, 0, 0, 1, 97];

const LIVE_FILE: [u8; 30] = [
    1, 0, 0, 0, 0, 0, 0, 0, 20, 1, 3, 0, 0, 0, 0, 0, 0, 0, 1, 0, 0, 0, 0, 0, 0, 0, 0, 1, 97, 0,
];

// A list of two bodies, of which the second is cut.
const STALE: [u8; 36] = [
    1, 0, 0, 0, 0, 0, 0, 0, 20, 1, 3, 0, 0, 0, 0, 0, 0, 0, 9, 0, 0, 0, 0, 0, 0, 0, 0, 1, 98, 1, 0,
    0, 0, 0, 0, 0,
];

const BLOCKS: Row = Row {
    call: Call::Blocks(5, b"GORBnew"),
    file: FileId::Block(5),
    stale: b"GORBstale and longer",
    want: b"GORBnew",
    calls: &[CUT, (DiskKind::Write, 0, 7), SYNC],
};

const KEYS: Row = Row {
    call: Call::Keys(1, &LIVE),
    file: FileId::Keys(1),
    stale: &STALE,
    want: &LIVE_FILE,
    calls: &[CUT, (DiskKind::Write, 0, 1), (DiskKind::Write, 1, 29), SYNC],
};

const LOG: Row = Row {
    call: Call::Log(1),
    file: FileId::Log(1),
    stale: &STALE,
    want: &[0],
    calls: &[CUT, (DiskKind::Write, 0, 1), SYNC],
};

// A key list with an empty body, as that of a store with no series has one of one byte, its version.
const NONE_LIVE: Row = Row {
    call: Call::Keys(2, &[1]),
    file: FileId::Keys(2),
    stale: &[],
    want: &[1, 0, 0, 0, 0, 0, 0, 0, 1, 1, 0],
    calls: &[CUT, (DiskKind::Write, 0, 1), (DiskKind::Write, 1, 10), SYNC],
};

const ROWS: [Row; 4] = [BLOCKS, KEYS, LOG, NONE_LIVE];

/// A file that the calls do not touch.
const OTHER: FileId = FileId::Log(0);

const OTHER_BYTES: &[u8] = b"other";

/// Lays the file that is not touched, and what an earlier finish left: four calls.
fn lay(disk: &mut MemoryDisk, row: &Row) -> Result<(), DiskFailed> {
    disk.write_at(OTHER, 0, OTHER_BYTES)?;
    disk.sync(OTHER)?;
    disk.write_at(row.file, 0, row.stale)?;
    disk.sync(row.file)
}

const LAID: usize = 4;

/// Whether the call is answered Ok.
fn is_made(alloc: Global, disk: &mut MemoryDisk, call: Call) -> Result<bool, AllocError> {
    match call {
        Call::Blocks(window, bytes) => Ok(write_blocks(disk, window, bytes).is_ok()),
        Call::Keys(number, body) => {
            let mut frame = framed(alloc, body)?;
            Ok(write_keys_file(disk, number, &mut frame).is_ok())
        }
        Call::Log(number) => Ok(begin_log(disk, number).is_ok()),
    }
}

/// Whether the other file is as it was in each image of each moment since the call began.
fn others_stay(alloc: Global, disk: &MemoryDisk) -> Result<bool, AllocError> {
    for moment in LAID..disk.calls().len() + 1 {
        for choice in 0..4 {
            if !leaves(alloc, disk, moment as u64, choice, OTHER, OTHER_BYTES)? {
                return Ok(false);
            }
        }
    }
    Ok(true)
}

/// Whether each image of the last moment has these bytes in a file.
fn is_stable(
    alloc: Global,
    disk: &MemoryDisk,
    file: FileId,
    want: &[u8],
) -> Result<bool, AllocError> {
    let moment = disk.calls().len() as u64;
    for choice in 0..4 {
        if !leaves(alloc, disk, moment, choice, file, want)? {
            return Ok(false);
        }
    }
    Ok(true)
}

/// Whether the call writes what is wanted, by the calls of the disk that are wanted, and touches no other file.
fn is_as_wanted(alloc: Global, row: &Row) -> Result<bool, AllocError> {
    let mut disk = MemoryDisk::new(alloc);
    if lay(&mut disk, row).is_err() || !is_made(alloc, &mut disk, row.call)? {
        return Ok(false);
    }
    Ok(
        are_calls(disk.calls(), LAID, row.file, row.calls, false)
            && others_stay(alloc, &disk)?
            && is_stable(alloc, &disk, row.file, row.want)?
            && holds(alloc, &mut disk, row.file, row.want)?,
    )
}

#[test]
fn files_are_written_over_stale_ones(rt: HostRuntime) -> Result<(), Fail> {
    for (place, row) in ROWS.iter().enumerate() {
        assert!(rt; is_as_wanted(rt.alloc(), row)?, "row {place}");
    }
    Ok(())
}

/// Whether the call stops at the call of the disk that fails, and then makes the file once more when it is called again.
fn is_stopped(alloc: Global, row: &Row, failing: usize) -> Result<bool, AllocError> {
    let failed = vec![in alloc; failing.saturating_add(LAID) as u64; 1]?;
    let mut disk = MemoryDisk::failing(alloc, failed);
    if lay(&mut disk, row).is_err() || is_made(alloc, &mut disk, row.call)? {
        return Ok(false);
    }
    let Some(made) = row.calls.get(..failing.saturating_add(1)) else {
        return Ok(false);
    };
    Ok(
        are_calls(disk.calls(), LAID, row.file, made, true)
            && others_stay(alloc, &disk)?
            && is_made(alloc, &mut disk, row.call)?
            && is_stable(alloc, &disk, row.file, row.want)?,
    )
}

#[test]
fn each_call_that_fails_is_answered(rt: HostRuntime) -> Result<(), Fail> {
    for (place, row) in ROWS.iter().enumerate() {
        for failing in 0..row.calls.len() {
            assert!(rt;
                is_stopped(rt.alloc(), row, failing)?,
                "row {place}, call {failing}"
            );
        }
    }
    Ok(())
}
