//! The mark, appended to the marks of a store.
ghost use Rattle.std.specs.Prelude.{◌≡◌, [], IsTrue, IfSome};
ghost use Rattle.gor_disk.specs.declared.disk.FileId.TheVariants.{Marks};
ghost use Rattle.gor_gate.specs.Places.{IsEnsured};

use crate::looks::{Wanted, are_calls, framed, leaves};
use gor_disk::{Disk, DiskKind, FileId, MemoryDisk};
use gor_gate::{Body, GateFault, Gated, read_all};
use gor_seal::write_mark_file;
use std::alloc::{AllocError, Global};
use std::test::Fail;

// The first mark of a store of one shard, and then that of its window 5.
const HOME: [u8; 10] = [1, 1, 0, 0, 0, 1, 0, 0, 0, 0];

const SEALED: [u8; 22] = [
    1, 2, 0, 0, 0, 5, 0, 0, 0, 1, 0, 0, 0, 0, 0, 0, 0, 7, 0, 0, 0, 0,
];

const AFTER: [u8; 51] = [
    1, 0, 0, 0, 0, 0, 0, 0, 10, 1, 1, 0, 0, 0, 1, 0, 0, 0, 0, 1, 0, 0, 0, 0, 0, 0, 0, 22, 1, 2, 0,
    0, 0, 5, 0, 0, 0, 1, 0, 0, 0, 0, 0, 0, 0, 7, 0, 0, 0, 0, 0,
];

/// The calls of the disk by which the second mark is appended.
const CALLS: [Wanted; 4] = [
    (DiskKind::Write, 20, 31),
    (DiskKind::Sync, 0, 0),
    (DiskKind::Write, 19, 1),
    (DiskKind::Sync, 0, 0),
];

/// The file of the marks on a disk where it is empty, made ready for its first mark by two calls.
pub fn ready<D: Disk>(disk: &mut D) -> Option<Gated>
    requires { IsTrue D.tells → (D.view disk.old).seen Marks ≡ [] }
    ensures file { IfSome result (λ gated. gated.file ≡ Marks) }
    ensures ensured { IsTrue D.tells → IfSome result (λ gated. IsEnsured gated (D.view disk.new)) }
{
    let mut gated = Gated::empty(FileId::Marks);
    match gated.ensure(disk) {
        Ok(()) => Some(gated),
        Err(_) => None,
    }
}

/// Appends the two marks; how many of them were answered Ok.
fn mark_twice<D: Disk>(alloc: Global, disk: &mut D) -> Result<u32, AllocError>
    requires { IsTrue D.tells → (D.view disk.old).seen Marks ≡ [] }
{
    let mut home = framed(alloc, &HOME)?;
    let mut sealed = framed(alloc, &SEALED)?;
    let Some(mut gated) = ready(disk) else {
        return Ok(0);
    };
    if write_mark_file(disk, &mut gated, &mut home).is_err() {
        return Ok(0);
    }
    if write_mark_file(disk, &mut gated, &mut sealed).is_err() {
        return Ok(1);
    }
    Ok(2)
}

/// The calls that make the file ready and append the first mark.
const MADE: usize = 6;

/// How many marks the images of a moment have, at least and at most.
type Range = (u32, u32);

/// From the moment after the first mark on, while the second is appended.
const LEFT: [Range; 5] = [(1, 1), (1, 1), (1, 1), (1, 2), (2, 2)];

/// After the first of these calls that fails.
const LEFT_FAILED: [Range; 4] = [(1, 1), (1, 1), (1, 2), (1, 2)];

/// How many of the two marks there are; none where there are others.
fn count_of(bodies: &[Body]) -> u32 {
    match bodies {
        [one] if one.bytes.as_slice() == HOME.as_slice() => 1,
        [one, two]
            if one.bytes.as_slice() == HOME.as_slice()
                && two.bytes.as_slice() == SEALED.as_slice() => 2,
        _ => 0,
    }
}

/// Whether an image of this moment has as many marks.
fn is_within(
    alloc: Global,
    disk: &MemoryDisk,
    moment: u64,
    choice: u64,
    range: Range,
) -> Result<bool, AllocError> {
    if moment > disk.calls().len() as u64 {
        return Ok(false);
    }
    let mut image = disk.image(moment, choice)?;
    match read_all(alloc, &mut image, FileId::Marks) {
        Ok((_, bodies)) => {
            let count = count_of(&bodies);
            Ok(range.0 <= count && count <= range.1)
        }
        Err(GateFault::NoMemory) => Err(AllocError),
        Err(_) => Ok(false),
    }
}

fn are_within(
    alloc: Global,
    disk: &MemoryDisk,
    from: usize,
    ranges: &[Range],
) -> Result<bool, AllocError> {
    for (place, range) in ranges.iter().enumerate() {
        for choice in 0..6 {
            if !is_within(
                alloc,
                disk,
                from.saturating_add(place) as u64,
                choice,
                *range,
            )? {
                return Ok(false);
            }
        }
    }
    Ok(true)
}

fn is_as_wanted(alloc: Global) -> Result<bool, AllocError> {
    let mut disk = MemoryDisk::new(alloc);
    Ok(
        mark_twice(alloc, &mut disk)? == 2
            && are_calls(disk.calls(), MADE, FileId::Marks, &CALLS, false)
            && are_within(alloc, &disk, MADE, &LEFT)?
            && leaves(alloc, &disk, 10, 0, FileId::Marks, &AFTER)?,
    )
}

#[test]
fn the_mark_is_appended(rt: HostRuntime) -> Result<(), Fail> {
    assert!(rt; is_as_wanted(rt.alloc())?);
    Ok(())
}

/// Whether the call of the disk that fails ends the append, and each image has the old marks, or them and the mark.
fn is_stopped(alloc: Global, failing: usize) -> Result<bool, AllocError> {
    let failed = vec![in alloc; failing.saturating_add(MADE) as u64; 1]?;
    let mut disk = MemoryDisk::failing(alloc, failed);
    if mark_twice(alloc, &mut disk)? != 1 {
        return Ok(false);
    }
    let next = failing.saturating_add(1);
    let (Some(calls), Some(before)) = (CALLS.get(..next), LEFT.get(..next)) else {
        return Ok(false);
    };
    let Some(last) = LEFT_FAILED.get(failing) else {
        return Ok(false);
    };
    Ok(
        are_calls(disk.calls(), MADE, FileId::Marks, calls, true)
            && are_within(alloc, &disk, MADE, before)?
            && are_within(alloc, &disk, next.saturating_add(MADE), &[*last])?,
    )
}

#[test]
fn each_call_that_fails_leaves_one_of_two_lists(rt: HostRuntime) -> Result<(), Fail> {
    for failing in 0..CALLS.len() {
        assert!(rt; is_stopped(rt.alloc(), failing)?, "call {failing}");
    }
    Ok(())
}
