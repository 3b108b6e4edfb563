//! More block files than are held open.
use crate::watched::{Call, NO_PLAN, Watched};
use gor_disk::{Disk, FileId};
use gor_folder::FolderDisk;
use std::alloc::AllocError;
use std::fs;

/// Writes the block file of a window, of one byte, and makes it stable.
fn writes(disk: &mut FolderDisk<Watched>, window: u8) -> bool {
    let file = FileId::Block(window as u32);
    disk.write_at(file, 0, &[window]).is_ok() && disk.sync(file).is_ok()
}

/// Whether the block file of a window has its byte.
fn reads(disk: &mut FolderDisk<Watched>, window: u8) -> bool {
    let mut into = [0u8; 1];
    disk.read_at(FileId::Block(window as u32), 0, &mut into)
        .is_ok()
        && into == [window]
}

fn write_all(disk: &mut FolderDisk<Watched>) -> bool {
    for window in 0..40u8 {
        if !writes(disk, window) {
            return false;
        }
    }
    true
}

fn read_all(disk: &mut FolderDisk<Watched>) -> bool {
    for window in 0..40u8 {
        if !reads(disk, window) {
            return false;
        }
    }
    true
}

#[test]
fn many_block_files_are_written_and_read(rt: HostRuntime) -> Result<(), AllocError> {
    let place = "blocks_of_a_test";
    let _ = fs::remove_dir_all(&rt, place);
    let watched = Watched::new(&rt, NO_PLAN)?;
    let mut disk = FolderDisk::new(watched.clone()?, String::from_str(rt.alloc(), place)?);
    assert!(rt; write_all(&mut disk));
    // Of the forty that were made thirty-two are held.
    assert_eq!(rt; watched.calls().count(Call::Close), 8);
    assert_eq!(rt; watched.calls().count(Call::NewNames), 0);
    assert!(rt; read_all(&mut disk));
    assert_eq!(rt; watched.calls().count(Call::Unstable), 0);
    assert!(rt; disk.close().is_ok());
    assert!(rt; fs::remove_dir_all(&rt, place).is_ok());
    Ok(())
}
