//! A folder is a disk, and the names in it.
use crate::steps::Step::{Cut, Holds, Lacks, Len, Read, Run, Sync, Write};
use crate::steps::{Case, Row, follow};
use crate::watched::NO_PLAN;
use gor_disk::{Disk, DiskFailed, FileId};
use gor_folder::{FolderDisk, dump_disks, shard_disk, store_disks};
use std::alloc::AllocError;
use std::fs;

const MARKS: FileId = FileId::Marks;

const LOG: FileId = FileId::Log(3);

const DISK: [Case; 1] = [Case(
    "a disk",
    NO_PLAN,
    &[
        Row(Lacks("store"), ""),
        // The first call makes the folder, and nothing but a write makes a file.
        Row(Len(LOG, 0), ""),
        Row(Read(LOG, 0, b""), ""),
        Row(Cut(LOG, 0), ""),
        Row(Sync(LOG), ""),
        Row(Lacks("store/shard.0/log.3"), ""),
        Row(Write(LOG, 0, b"abcdef"), ""),
        Row(Write(LOG, 2, b"XY"), ""),
        Row(Write(LOG, 6, b"g"), ""),
        Row(Sync(LOG), ""),
        Row(Len(LOG, 7), ""),
        Row(Len(FileId::Keys(3), 0), ""),
        Row(Cut(LOG, 5), ""),
        Row(Len(LOG, 5), ""),
        Row(Read(LOG, 1, b"bXYe"), ""),
        // What lies past the end is not read, and no file grows past its greatest length.
        Row(
            Read(LOG, 3, b"YeYe"),
            "store/shard.0/log.3: read: failed to fill whole buffer",
        ),
        Row(
            Write(LOG, 9_223_372_036_854_775_807, b"z"),
            "store/shard.0/log.3: read: failed to fill whole buffer",
        ),
        Row(Len(LOG, 5), ""),
        // Another disk reads what this one wrote, in a store that has a mark.
        Row(Write(MARKS, 0, b"\x01mark"), ""),
        Row(Run, ""),
        Row(Len(LOG, 5), ""),
        Row(Read(LOG, 0, b"abXYe"), ""),
    ],
)];

#[test]
fn a_folder_is_a_disk(rt: HostRuntime) -> Result<(), AllocError> {
    follow(&rt, &rt, "folder_of_a_test", &DISK)
}

const NAMES: [Case; 1] = [Case(
    "names",
    NO_PLAN,
    &[
        Row(Lacks("store/shard.0/marks"), ""),
        Row(Write(MARKS, 0, b"m"), ""),
        Row(Holds("store/shard.0/marks", b"m"), ""),
        Row(Lacks("store/shard.0/keys.0"), ""),
        Row(Write(FileId::Keys(0), 0, b"keys"), ""),
        Row(Holds("store/shard.0/keys.0", b"keys"), ""),
        Row(Lacks("store/shard.0/log.12"), ""),
        Row(Write(FileId::Log(12), 0, b"log"), ""),
        Row(Holds("store/shard.0/log.12", b"log"), ""),
        Row(Lacks("store/shard.0/block.596522"), ""),
        Row(Write(FileId::Block(596_522), 0, b"of"), ""),
        Row(Holds("store/shard.0/block.596522", b"of"), ""),
    ],
)];

#[test]
fn files_have_their_names(rt: HostRuntime) -> Result<(), AllocError> {
    follow(&rt, &rt, "names_of_a_test", &NAMES)
}

/// A disk that another thread may be given.
fn sendable<D: Disk + Send>(disk: &mut D) -> &mut D {
    disk
}

/// Writes the marks of a shard.
fn marks(disks: &mut [FolderDisk<HostRuntime>], shard: usize) -> Result<(), DiskFailed> {
    match disks.get_mut(shard) {
        Some(disk) => sendable(disk).write_at(MARKS, 0, b"m"),
        None => Err(DiskFailed),
    }
}

/// Whether the marks of some shards are written, each in the folder of its shard.
fn are_marked(
    rt: &HostRuntime,
    store: &str,
    disks: &mut [FolderDisk<HostRuntime>],
) -> Result<bool, AllocError> {
    for shard in [0usize, 9, 15] {
        let path = format!(in rt.alloc(); "{store}/shard.{shard}/marks")?;
        if marks(disks, shard).is_err() || fs::exists(rt, path).ok() != Some(true) {
            return Ok(false);
        }
    }
    Ok(true)
}

/// Whether the disk of a shard has marks of a byte.
fn has_marks(disk: &mut FolderDisk<HostRuntime>) -> bool {
    disk.len(MARKS).ok() == Some(1)
}

#[test]
fn a_store_has_a_folder_a_shard(rt: HostRuntime) -> Result<(), AllocError> {
    let store = "disks_of_a_test";
    let _ = fs::remove_dir_all(&rt, store);
    let mut disks = store_disks(&rt, store)?;
    assert_eq!(rt; disks.len(), 16);
    // No folder is made before a disk is used.
    assert!(rt; fs::exists(&rt, store).ok() == Some(false));
    let went = are_marked(&rt, store, &mut disks)?;
    assert!(rt; went);
    assert!(rt; fs::exists(&rt, "disks_of_a_test/shard.1").ok() == Some(false));
    // The disk of one shard alone lies in the same folder, and so do the disks of a dump.
    drop(disks);
    let mut ninth = shard_disk(&rt, store, 9)?;
    assert!(rt; has_marks(&mut ninth));
    assert!(rt; ninth.close().is_ok());
    let mut dumped = dump_disks(&rt, store)?;
    assert_eq!(rt; dumped.len(), 16);
    assert!(rt; dumped.get_mut(15).is_some_and(has_marks));
    assert!(rt; fs::remove_dir_all(&rt, store).is_ok());
    Ok(())
}
