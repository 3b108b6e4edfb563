//! The disks of a store, in the folders of its shards.
ghost use Rattle.std.specs.Prelude.{◌≡◌, length, IfOk};

use crate::folder::Purpose;
use crate::folder_disk::FolderDisk;
use crate::held_file::HeldFile;
use std::alloc::{AllocError, Global};
use std::rt::Files;

/// How many disks a store has, one a shard.
const SHARDS: u32 = 16;

/// The path of a shard's folder.
fn shard_folder(alloc: Global, store: &str, shard: u32) -> Result<String, AllocError> {
    format!(in alloc; "{store}/shard.{shard}")
}

/// The sixteen disks of a store for a purpose.
fn disks_for<R: Files + AllocGlobal + Clone + Drop>(
    rt: &R,
    store: &str,
    purpose: Purpose,
) -> Result<Vec<FolderDisk<R>>, AllocError>
where
    R::File: HeldFile,
    ensures { IfOk result (λ disks. length disks.items ≡ 16) }
{
    let mut disks = Vec::new(rt.alloc());
    for shard in 0..SHARDS {
        let folder = shard_folder(rt.alloc(), store, shard)?;
        disks.push(FolderDisk::with(rt.clone()?, folder, purpose))?;
    }
    Ok(disks)
}

/// The disk of one shard in the folder of a store, for a run: its folder `shard.N`. Nothing is done to it yet.
pub fn shard_disk<R: Files + AllocGlobal + Clone + Drop>(
    rt: &R,
    store: &str,
    shard: u32,
) -> Result<FolderDisk<R>, AllocError>
where
    R::File: HeldFile,
{
    let folder = shard_folder(rt.alloc(), store, shard)?;
    Ok(FolderDisk::new(rt.clone()?, folder))
}

/// The sixteen disks of a store for a run: the folders `shard.0` to `shard.15` in its folder. Nothing is done to them yet.
pub fn store_disks<R: Files + AllocGlobal + Clone + Drop>(
    rt: &R,
    store: &str,
) -> Result<Vec<FolderDisk<R>>, AllocError>
where
    R::File: HeldFile,
    ensures { IfOk result (λ disks. length disks.items ≡ 16) }
{
    disks_for(rt, store, Purpose::Run)
}

/// The sixteen disks of a store for a dump, which makes, writes and cuts nothing. Nothing is done to them yet.
pub fn dump_disks<R: Files + AllocGlobal + Clone + Drop>(
    rt: &R,
    store: &str,
) -> Result<Vec<FolderDisk<R>>, AllocError>
where
    R::File: HeldFile,
    ensures { IfOk result (λ disks. length disks.items ≡ 16) }
{
    disks_for(rt, store, Purpose::Dump)
}
