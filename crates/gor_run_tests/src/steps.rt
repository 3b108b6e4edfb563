//! A test as a list of steps on the disk of shard 0, each with the answer that is wanted.
ghost use Rattle.std.specs.Prelude.{IfOk};
ghost use Rattle.gor_disk.specs.Disk.{NothingPending};

use crate::machine::{
    Call, Fails, Input, call_of, called_dump, called_run, disk_of, disks_with, is_only_read,
    take_first,
};
use gor_disk::{Disk, DiskFailed, DiskKind, FileId, MemoryDisk};
use gor_outside::NoPause;
use gor_run::{Outcome, Status};
use std::alloc::{AllocError, Global};
use std::mem;
use std::process::Abort;
use std::sync::Wait;
use std::thread::Threads;

/// How a call is to end.
#[derive(Clone, Copy)]
pub enum Ends {
    /// With this status.
    With(Status),
    /// With the number of a refused disk and this text.
    Refused(&'static str),
}

/// What the sink is then to hold.
#[derive(Clone, Copy)]
pub enum Text {
    Is(&'static [u8]),
    EndsWith(&'static [u8]),
    OneOf(&'static [&'static [u8]]),
    Any,
}

/// A step. A run is on what stands after a restart, or on an empty disk of which a call fails; a dump is on the disk as it is.
#[derive(Clone, Copy)]
pub enum Step {
    Run(&'static str, Input, Fails, Ends, Text),
    Dump(&'static str, Fails, Ends, Text),
    /// The marks, the key list and the log are written to an empty disk, of which a call fails.
    Lay(&'static [u8], &'static [u8], &'static [u8], Fails),
    /// One byte of a file is another.
    Change(FileId, u64, u8),
    /// A file is cut to a length.
    Cut(FileId, u64),
    /// The machine stops, and nothing but what is stable is left.
    Restart,
    /// All that was written gets stable.
    Settle,
    /// The machine stops within the second write of a body to the log, and this choice of what may be left is.
    StopInLog(u64),
    /// A file has these bytes, and no others.
    Holds(FileId, &'static [u8]),
    /// A file has these bytes from a place on.
    HoldsAt(FileId, u64, &'static [u8]),
}

/// A name and the steps of a case, which begins on an empty disk.
pub type Case = (&'static str, &'static [Step]);

pub const OK: Ends = Ends::With(Status::Ok);

/// The disk that a stop at this moment leaves, by this choice; the moment is at most the last one.
pub fn stopped_at(disk: &MemoryDisk, moment: u64, choice: u64) -> Result<MemoryDisk, AllocError>
    ensures { IfOk result (λ left. NothingPending (⟦<MemoryDisk as Disk>⟧.view left)) }
{
    disk.image(moment.min(disk.calls().len() as u64), choice)
}

/// The disk that a run is handed.
fn disk_of_run(disk: &MemoryDisk, alloc: Global, fails: Fails) -> Result<MemoryDisk, AllocError>
    ensures { IfOk result (λ left. NothingPending (⟦<MemoryDisk as Disk>⟧.view left)) }
{
    match fails {
        Fails::Disk(_) => disk_of(alloc, fails),
        _ => stopped_at(disk, u64::MAX, 0),
    }
}

fn is_end(alloc: Global, status: Status, ends: Ends) -> Result<bool, AllocError> {
    match ends {
        Ends::With(wanted) => Ok(status == wanted),
        Ends::Refused(text) => {
            let shown = format!(in alloc; "{status}")?;
            Ok(status.number() == 8 && shown.as_str() == text)
        }
    }
}

fn is_text(held: &[u8], text: Text) -> bool {
    match text {
        Text::Is(text) => held == text,
        Text::EndsWith(end) => held.ends_with(end),
        Text::OneOf(texts) => is_one_of(held, texts),
        Text::Any => true,
    }
}

/// Whether some bytes are one of these.
pub fn is_one_of(held: &[u8], texts: &[&[u8]]) -> bool {
    for text in texts {
        if held == *text {
            return true;
        }
    }
    false
}

/// Whether a run that ends so calls no disk.
fn calls_none(status: Status) -> bool {
    matches!(
        status,
        Status::Words | Status::ReadFault | Status::TooLong | Status::BadLine { .. }
    )
}

/// Runs what a call is handed on the disk: how it ended, where no other disk was called.
fn run_on<R: AllocGlobal + Threads + Wait + Sync>(
    rt: &R,
    disk: &mut MemoryDisk,
    call: &mut Call,
    fails: Fails,
) -> Result<Option<Status>, AllocError> {
    let first = disk_of_run(disk, rt.alloc(), fails)?;
    let disks = disks_with(rt.alloc(), first)?;
    let Outcome { status, disks } = called_run(
        rt,
        &call.words,
        &mut call.source,
        &mut call.sink,
        disks,
        &NoPause,
    );
    if take_first(disk, disks) && (!calls_none(status) || disk.calls().is_empty()) {
        Ok(Some(status))
    } else {
        Ok(None)
    }
}

/// Dumps the disk: how the dump ended, where no other disk was called, and this one was only read.
fn dump_on<R: AllocGlobal>(
    rt: &R,
    disk: &mut MemoryDisk,
    call: &mut Call,
) -> Result<Option<Status>, AllocError> {
    let before = disk.calls().len();
    let first = mem::replace(disk, MemoryDisk::new(rt.alloc()));
    let disks = disks_with(rt.alloc(), first)?;
    let Outcome { status, disks } = called_dump(rt, &call.words, &mut call.sink, disks);
    if take_first(disk, disks) && is_only_read(disk.calls(), before) {
        Ok(Some(status))
    } else {
        Ok(None)
    }
}

/// Whether a call ended so.
fn is_answered(
    alloc: Global,
    call: &Call,
    status: Option<Status>,
    ends: Ends,
    text: Text,
) -> Result<bool, AllocError> {
    match status {
        Some(status) => Ok(is_end(alloc, status, ends)? && is_text(call.sink.bytes(), text)),
        None => Ok(false),
    }
}

fn is_run<R: AllocGlobal + Threads + Wait + Sync>(
    rt: &R,
    disk: &mut MemoryDisk,
    (words, input, fails): (&str, Input, Fails),
    (ends, text): (Ends, Text),
) -> Result<bool, AllocError> {
    let mut call = call_of(rt.alloc(), words, input, fails, 3)?;
    let status = run_on(rt, disk, &mut call, fails)?;
    is_answered(rt.alloc(), &call, status, ends, text)
}

fn is_dump<R: AllocGlobal>(
    rt: &R,
    disk: &mut MemoryDisk,
    (words, fails): (&str, Fails),
    (ends, text): (Ends, Text),
) -> Result<bool, AllocError> {
    let mut call = call_of(rt.alloc(), words, Input::Bytes(b""), fails, 5)?;
    let status = dump_on(rt, disk, &mut call)?;
    is_answered(rt.alloc(), &call, status, ends, text)
}

/// Writes the marks, the key list and the log of a store that has no other file.
pub fn write_store<D: Disk>(
    disk: &mut D,
    marks: &[u8],
    keys: &[u8],
    log: &[u8],
) -> Result<(), DiskFailed> {
    disk.write_at(FileId::Marks, 0, marks)?;
    disk.write_at(FileId::Keys(0), 0, keys)?;
    disk.write_at(FileId::Log(0), 0, log)
}

fn is_laid(
    alloc: Global,
    disk: &mut MemoryDisk,
    (marks, keys, log): (&[u8], &[u8], &[u8]),
    fails: Fails,
) -> Result<bool, AllocError> {
    *disk = disk_of(alloc, fails)?;
    Ok(write_store(disk, marks, keys, log).is_ok())
}

fn change(disk: &mut MemoryDisk, file: FileId, at: u64, byte: u8) -> Result<(), DiskFailed> {
    if at < disk.len(file)? {
        disk.write_at(file, at, &[byte])
    } else {
        Err(DiskFailed)
    }
}

fn cut(disk: &mut MemoryDisk, file: FileId, length: u64) -> Result<(), DiskFailed> {
    if length > disk.len(file)? {
        return Err(DiskFailed);
    }
    disk.cut(file, length)?;
    disk.sync(file)
}

/// The disk is what a stop at this moment leaves of it.
fn is_stopped(disk: &mut MemoryDisk, moment: u64, choice: u64) -> Result<bool, AllocError> {
    *disk = stopped_at(disk, moment, choice)?;
    Ok(true)
}

/// The first moment at which the second write of a body to the log was made: the gate before it stays closed.
fn second_log_write(disk: &MemoryDisk) -> Option<u64> {
    let mut is_second = false;
    for (place, call) in disk.calls().iter().enumerate() {
        if call.file == FileId::Log(0) && call.kind == DiskKind::Write && call.len > 1 {
            if is_second {
                return (place as u64).checked_add(1);
            }
            is_second = true;
        }
    }
    None
}

fn is_stopped_in_log(disk: &mut MemoryDisk, choice: u64) -> Result<bool, AllocError> {
    match second_log_write(disk) {
        Some(moment) => is_stopped(disk, moment, choice),
        None => Ok(false),
    }
}

/// Reads a file from a place on into bytes, as many as it then has there.
fn read_from(disk: &mut MemoryDisk, file: FileId, at: u64, into: &mut Vec<u8>) -> Option<()> {
    let length = disk.len(file).ok()?.checked_sub(at)?;
    into.resize(length as usize, 0).ok()?;
    disk.read_at(file, at, into).ok()
}

/// Whether a file has these bytes from a place on, and no others where it is to end there.
fn is_held(
    alloc: Global,
    disk: &mut MemoryDisk,
    (file, at): (FileId, u64),
    wanted: &[u8],
    ends: bool,
) -> bool {
    let mut bytes = Vec::new(alloc);
    match read_from(disk, file, at, &mut bytes) {
        Some(()) => bytes.starts_with(wanted) && (!ends || bytes.len() == wanted.len()),
        None => false,
    }
}

/// Does a step, and says whether it was answered as is wanted.
pub fn is_done<R: AllocGlobal + Threads + Wait + Sync>(
    rt: &R,
    disk: &mut MemoryDisk,
    step: Step,
) -> Result<bool, AllocError> {
    let alloc = rt.alloc();
    match step {
        Step::Run(words, input, fails, ends, text) => {
            is_run(rt, disk, (words, input, fails), (ends, text))
        }
        Step::Dump(words, fails, ends, text) => is_dump(rt, disk, (words, fails), (ends, text)),
        Step::Lay(marks, keys, log, fails) => is_laid(alloc, disk, (marks, keys, log), fails),
        Step::Change(file, at, byte) => Ok(change(disk, file, at, byte).is_ok()),
        Step::Cut(file, length) => Ok(cut(disk, file, length).is_ok()),
        Step::Restart => is_stopped(disk, u64::MAX, 0),
        Step::Settle => is_stopped(disk, u64::MAX, 1),
        Step::StopInLog(choice) => is_stopped_in_log(disk, choice),
        Step::Holds(file, wanted) => Ok(is_held(alloc, disk, (file, 0), wanted, true)),
        Step::HoldsAt(file, at, wanted) => Ok(is_held(alloc, disk, (file, at), wanted, false)),
    }
}

fn first_other_on<R: AllocGlobal + Threads + Wait + Sync>(
    rt: &R,
    disk: &mut MemoryDisk,
    steps: &[Step],
) -> Result<Option<usize>, AllocError> {
    for (place, step) in steps.iter().enumerate() {
        if !is_done(rt, disk, *step)? {
            return Ok(Some(place));
        }
    }
    Ok(None)
}

/// The place of the first of some steps, one after another from an empty disk on, that is not answered as is wanted.
pub fn first_other<R: AllocGlobal + Threads + Wait + Sync>(
    rt: &R,
    steps: &[Step],
) -> Result<Option<usize>, AllocError> {
    let mut disk = MemoryDisk::new(rt.alloc());
    first_other_on(rt, &mut disk, steps)
}

/// Goes through some cases, and fails at the first step that is not answered as is wanted.
pub fn follow<R: AllocGlobal + Threads + Wait + Sync + Abort>(
    rt: &R,
    cases: &[Case],
) -> Result<(), AllocError> {
    for (name, steps) in cases {
        let other = first_other(rt, steps)?;
        assert!(rt; other.is_none(), "{name}: step {other:?}");
    }
    Ok(())
}
