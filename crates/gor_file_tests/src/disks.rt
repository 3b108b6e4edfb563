//! The disk in memory: what a crash may leave of it, calls that fail, and a small caller over any disk.
use crate::silent::Silent;
use gor_disk::{Disk, DiskCall, DiskFailed, DiskKind, FileId, MemoryDisk, stamp};
use std::alloc::{AllocError, Global};
use std::process::Abort;
use std::test::Fail;

const MARKS: FileId = FileId::Marks;

const LOG: FileId = FileId::Log(0);

#[derive(Clone, Copy)]
enum Step {
    Write(FileId, u64, &'static [u8]),
    Cut(FileId, u64),
    Sync(FileId),
}

/// Asks for the length, and then makes the step where its place lies in the file.
fn make(disk: &mut MemoryDisk, step: Step) -> Result<(), DiskFailed> {
    match step {
        Step::Write(file, at, bytes) => {
            if at > disk.len(file)? {
                return Ok(());
            }
            disk.write_at(file, at, bytes)
        }
        Step::Cut(file, len) => {
            if len > disk.len(file)? {
                return Ok(());
            }
            disk.cut(file, len)
        }
        Step::Sync(file) => {
            disk.len(file)?;
            disk.sync(file)
        }
    }
}

/// The bytes of a file; none where the disk fails.
fn contents(
    alloc: Global,
    disk: &mut MemoryDisk,
    file: FileId,
) -> Result<Option<Vec<u8>>, AllocError> {
    let Ok(len) = disk.len(file) else {
        return Ok(None);
    };
    let mut bytes = vec![in alloc; 0u8; len as usize]?;
    match disk.read_at(file, 0, bytes.as_mut_slice()) {
        Ok(()) => Ok(Some(bytes)),
        Err(_) => Ok(None),
    }
}

fn holds(
    alloc: Global,
    disk: &mut MemoryDisk,
    file: FileId,
    want: &[u8],
) -> Result<bool, AllocError> {
    match contents(alloc, disk, file)? {
        Some(bytes) => Ok(bytes.as_slice() == want),
        None => Ok(false),
    }
}

/// The file's bytes after a crash at this moment, if there was such a moment.
fn left(
    alloc: Global,
    disk: &MemoryDisk,
    moment: u64,
    choice: u64,
    file: FileId,
) -> Result<Option<Vec<u8>>, AllocError> {
    if moment > disk.calls().len() as u64 {
        return Ok(None);
    }
    let mut image = disk.image(moment, choice)?;
    contents(alloc, &mut image, file)
}

/// A file, and what a crash at any of these moments may leave of it: from `least` bytes to as many as the pattern has,
/// where `?` is any byte. `stable` is there at choice 0, and `written` at choice 1.
#[derive(Clone, Copy)]
struct Row {
    from: u64,
    to: u64,
    file: FileId,
    stable: &'static [u8],
    written: &'static [u8],
    least: usize,
    pattern: &'static [u8],
}

const fn expected(
    moments: (u64, u64),
    file: FileId,
    exact: (&'static [u8], &'static [u8]),
    least: usize,
    pattern: &'static [u8],
) -> Row {
    Row {
        from: moments.0,
        to: moments.1,
        file,
        stable: exact.0,
        written: exact.1,
        least,
        pattern,
    }
}

const STEPS: [Step; 6] = [
    Step::Write(FileId::Marks, 0, b"abcd"),
    Step::Sync(FileId::Marks),
    Step::Write(FileId::Marks, 2, b"XYZ"),
    Step::Write(LOG, 0, b"q"),
    Step::Cut(FileId::Marks, 3),
    Step::Sync(FileId::Marks),
];

fn is_like(got: &[u8], pattern: &[u8]) -> bool {
    for (byte, want) in got.iter().zip(pattern) {
        if byte != want && *want != b'?' {
            return false;
        }
    }
    got.len() <= pattern.len()
}

fn fits(row: &Row, choice: u64, got: &[u8]) -> bool {
    let exact = match choice {
        0 => got == row.stable,
        1 => got == row.written,
        _ => true,
    };
    exact && row.least <= got.len() && is_like(got, row.pattern)
}

fn leaves(
    alloc: Global,
    disk: &MemoryDisk,
    row: &Row,
    moment: u64,
    choice: u64,
) -> Result<bool, AllocError> {
    match left(alloc, disk, moment, choice, row.file)? {
        Some(bytes) => Ok(fits(row, choice, &bytes)),
        None => Ok(false),
    }
}

fn check_row(
    rt: &impl Abort,
    alloc: Global,
    disk: &MemoryDisk,
    row: &Row,
) -> Result<(), AllocError> {
    for moment in row.from..=row.to {
        for choice in 0..16 {
            let fits = leaves(alloc, disk, row, moment, choice)?;
            assert!(rt; fits, "moment {moment}, choice {choice}");
        }
    }
    Ok(())
}

// Each moment of six steps, with what the disk model lets a crash leave of the two files.
#[test]
fn images_are_those_of_the_model(rt: HostRuntime) -> Result<(), Fail> {
    let mut disk = MemoryDisk::new(rt.alloc());
    for step in STEPS {
        assert!(rt; make(&mut disk, step).is_ok());
    }
    assert_eq!(rt; disk.calls().len(), 12);
    let rows = [
        expected((0, 1), MARKS, (b"", b""), 0, b""),
        expected((2, 3), MARKS, (b"", b"abcd"), 0, b"????"),
        expected((4, 5), MARKS, (b"abcd", b"abcd"), 4, b"abcd"),
        expected((6, 9), MARKS, (b"abcd", b"abXYZ"), 4, b"ab???"),
        expected((10, 11), MARKS, (b"abcd", b"abX"), 3, b"ab???"),
        expected((12, 12), MARKS, (b"abX", b"abX"), 3, b"abX"),
        expected((0, 7), LOG, (b"", b""), 0, b""),
        expected((8, 12), LOG, (b"", b"q"), 0, b"?"),
    ];
    for row in &rows {
        check_row(&rt, rt.alloc(), &disk, row)?;
    }
    Ok(())
}

const WORD: &[u8] = b"abcdefgh";

fn is_torn(alloc: Global, disk: &MemoryDisk, choice: u64) -> Result<bool, AllocError> {
    match left(alloc, disk, 2, choice, LOG)? {
        Some(bytes) => Ok(!bytes.is_empty() && bytes.as_slice() != WORD),
        None => Ok(false),
    }
}

/// How many lengths the choices of the generator leave.
fn lengths(alloc: Global, disk: &MemoryDisk) -> Result<usize, AllocError> {
    let mut seen = [false; 9];
    for choice in 4..64 {
        if let Some(bytes) = left(alloc, disk, 2, choice, LOG)?
            && let Some(place) = seen.get_mut(bytes.len())
        {
            *place = true;
        }
    }
    Ok(seen.iter().filter(|is_there| **is_there).count())
}

// The choices 2 and 3 tear a write, and the generator leaves more than one length.
#[test]
fn torn_images_are_shown(rt: HostRuntime) -> Result<(), Fail> {
    let mut disk = MemoryDisk::new(rt.alloc());
    assert!(rt; make(&mut disk, Step::Write(LOG, 0, WORD)).is_ok());
    for choice in 2..4 {
        assert!(rt; is_torn(rt.alloc(), &disk, choice)?, "choice {choice}");
    }
    assert!(rt; lengths(rt.alloc(), &disk)? > 3);
    Ok(())
}

const fn call(file: FileId, kind: DiskKind, at: u64, len: u64, failed: bool) -> DiskCall {
    DiskCall {
        file,
        kind,
        at,
        len,
        failed,
    }
}

/// A step that fails, the call that is listed of it, and the log at the choices 0 and 1 of a crash after it.
#[derive(Clone, Copy)]
struct Failed {
    step: Step,
    call: DiskCall,
    stable: &'static [u8],
    made: &'static [u8],
}

/// Has "ab" stable in the log; and whether the further step, of place 4 or 5, fails.
fn fails(disk: &mut MemoryDisk, step: Step) -> bool {
    make(disk, Step::Write(LOG, 0, b"ab")).is_ok()
        && make(disk, Step::Sync(LOG)).is_ok()
        && make(disk, step).is_err()
}

fn are_listed(calls: &[DiskCall], last: DiskCall) -> bool {
    let want = [
        call(LOG, DiskKind::Len, 0, 0, false),
        call(LOG, DiskKind::Write, 0, 2, false),
        call(LOG, DiskKind::Len, 0, 0, false),
        call(LOG, DiskKind::Sync, 0, 0, false),
        call(LOG, DiskKind::Len, 0, 0, false),
        last,
    ];
    calls == want.as_slice()
}

/// Whether a crash after the six calls leaves these bytes of the log.
fn log_left(
    alloc: Global,
    disk: &MemoryDisk,
    choice: u64,
    want: &[u8],
) -> Result<bool, AllocError> {
    if disk.calls().len() < 6 {
        return Ok(false);
    }
    let mut image = disk.image(6, choice)?;
    holds(alloc, &mut image, LOG, want)
}

fn is_kept(alloc: Global, disk: &mut MemoryDisk, row: &Failed) -> Result<bool, AllocError> {
    Ok(
        log_left(alloc, disk, 0, row.stable)?
            && log_left(alloc, disk, 1, row.made)?
            && holds(alloc, disk, LOG, b"ab")?,
    )
}

fn failing(alloc: Global, place: u64) -> Result<MemoryDisk, AllocError> {
    let plan = vec![in alloc; place]?;
    Ok(MemoryDisk::failing(alloc, plan))
}

// A failed write or cut may have been made; a failed sync makes nothing stable; the calls are listed as they were made.
#[test]
fn failed_calls_are_listed_and_count_as_made(rt: HostRuntime) -> Result<(), Fail> {
    let rows = [
        Failed {
            step: Step::Write(LOG, 1, b"XY"),
            call: call(LOG, DiskKind::Write, 1, 2, true),
            stable: b"ab",
            made: b"aXY",
        },
        Failed {
            step: Step::Cut(LOG, 1),
            call: call(LOG, DiskKind::Cut, 0, 1, true),
            stable: b"ab",
            made: b"a",
        },
        Failed {
            step: Step::Sync(LOG),
            call: call(LOG, DiskKind::Sync, 0, 0, true),
            stable: b"ab",
            made: b"ab",
        },
    ];
    for row in &rows {
        let mut disk = failing(rt.alloc(), 5)?;
        assert!(rt; fails(&mut disk, row.step), "{:?}", row.call);
        assert!(rt; are_listed(disk.calls(), row.call), "{:?}", row.call);
        assert!(rt; is_kept(rt.alloc(), &mut disk, row)?, "{:?}", row.call);
    }
    Ok(())
}

// A call that was asked for the length fails too, and the step is not made.
#[test]
fn a_length_fails(rt: HostRuntime) -> Result<(), Fail> {
    let mut disk = failing(rt.alloc(), 4)?;
    assert!(rt; fails(&mut disk, Step::Sync(LOG)));
    assert_eq!(rt; disk.calls().len(), 5);
    assert!(rt; holds(rt.alloc(), &mut disk, LOG, b"ab")?);
    assert_eq!(rt;
        disk.calls().last().copied(),
        Some(call(LOG, DiskKind::Read, 0, 2, false))
    );
    Ok(())
}

// A caller over any disk, at one that tells its contents and at one that tells nothing.
#[test]
fn a_stamp_is_there(rt: HostRuntime) -> Result<(), Fail> {
    let mut disk = MemoryDisk::new(rt.alloc());
    assert!(rt; stamp(&mut disk, FileId::Keys(7), 9).is_ok());
    assert!(rt; holds(rt.alloc(), &mut disk, FileId::Keys(7), &[9])?);
    assert!(rt; holds(rt.alloc(), &mut disk, FileId::Block(7), &[])?);
    let mut silent = Silent::new();
    assert!(rt; stamp(&mut silent, FileId::Block(7), 9).is_ok());
    Ok(())
}
