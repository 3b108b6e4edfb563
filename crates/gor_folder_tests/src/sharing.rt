//! Two disks of one folder.
use gor_disk::{Disk, FileId};
use gor_folder::FolderDisk;
use std::alloc::AllocError;
use std::fs;
use std::process::Abort;

const FOLDER: &str = "shared_of_a_test/store/shard.0";

/// What one of two disks is told to do.
#[derive(Clone, Copy)]
enum Act {
    /// A new disk of a run takes its place.
    Run,
    /// A new disk of a dump takes its place.
    Dump,
    /// It is used.
    Use,
    /// It is closed.
    Close,
}

type Disks = [FolderDisk<HostRuntime>; 2];

fn new_disk(rt: &HostRuntime, writes: bool) -> Result<FolderDisk<HostRuntime>, AllocError> {
    let (folder, rt) = (String::from_str(rt.alloc(), FOLDER)?, rt.clone()?);
    Ok(if writes {
        FolderDisk::new(rt, folder)
    } else {
        FolderDisk::for_dump(rt, folder)
    })
}

/// Whether an act of a disk goes well.
fn does(
    rt: &HostRuntime,
    disk: &mut FolderDisk<HostRuntime>,
    act: Act,
) -> Result<bool, AllocError> {
    match act {
        Act::Run => *disk = new_disk(rt, true)?,
        Act::Dump => *disk = new_disk(rt, false)?,
        Act::Use => return Ok(disk.len(FileId::Marks).is_ok()),
        Act::Close => return Ok(disk.close().is_ok()),
    }
    Ok(true)
}

/// Whether the disk is told to be in use by another.
fn is_in_use(rt: &HostRuntime, disk: &FolderDisk<HostRuntime>) -> Result<bool, AllocError> {
    let Some(told) = disk.cause() else {
        return Ok(false);
    };
    let text = format!(in rt.alloc(); "{told}")?;
    Ok(text.as_str() == "shared_of_a_test/store/shard.0: in use by another run")
}

/// Whether an act of one of the disks goes well where it should, and else finds the folder in use.
fn goes(
    rt: &HostRuntime,
    disks: &mut Disks,
    which: usize,
    act: Act,
    well: bool,
) -> Result<bool, AllocError> {
    let Some(disk) = disks.get_mut(which) else {
        return Ok(false);
    };
    if does(rt, disk, act)? {
        return Ok(well);
    }
    Ok(!well && is_in_use(rt, disk)?)
}

fn share<R: Abort>(
    rt: &R,
    host: &HostRuntime,
    acts: &[(usize, Act, bool)],
) -> Result<(), AllocError> {
    let _ = fs::remove_dir_all(host, "shared_of_a_test");
    let mut disks = [new_disk(host, true)?, new_disk(host, true)?];
    for (number, (which, act, well)) in acts.iter().enumerate() {
        let went = goes(host, &mut disks, *which, *act, *well)?;
        assert!(rt; went, "act {number}");
    }
    assert!(rt; fs::remove_dir_all(host, "shared_of_a_test").is_ok());
    Ok(())
}

#[test]
fn one_run_is_alone_on_a_folder(rt: HostRuntime) -> Result<(), AllocError> {
    let acts = [
        (0, Act::Use, true),
        (1, Act::Use, false),
        (0, Act::Use, true),
        // A disk that was refused stays so, and a new one finds the folder free.
        (0, Act::Close, true),
        (1, Act::Use, false),
        (1, Act::Run, true),
        (1, Act::Use, true),
        // A run keeps dumps away, and goes with its disk.
        (0, Act::Dump, true),
        (0, Act::Use, false),
        (1, Act::Dump, true),
        (1, Act::Use, true),
        // Dumps share a folder, and keep runs away.
        (0, Act::Dump, true),
        (0, Act::Use, true),
        (1, Act::Use, true),
        (0, Act::Run, true),
        (0, Act::Use, false),
        (1, Act::Close, true),
        (0, Act::Run, true),
        (0, Act::Use, true),
    ];
    share(&rt, &rt, &acts)
}
