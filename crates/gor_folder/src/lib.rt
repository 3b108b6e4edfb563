//! The files of a store in folders of the file system.
//!
//! - `FolderDisk`: a folder as a disk. It tells nothing of what its files hold.
//! - `FileName`: the names of a shard's files in its folder.
//! - `store_disks`, `dump_disks`, `shard_disk`: the disks of a store, one a shard, for a run or a dump.
//! - `cause`: why a disk failed, as it is told.
//! - `HeldFile`: what a disk asks of the files that it holds open.
//! - `folder`: the calls of a disk on its folder and files, from the lock on.
//! - `folders`, `regular`, `opened`, `identity`, `calls`: the calls of the system that this takes.
#![tactic(auto)]

mod calls;
pub mod cause;
mod disks;
mod file_name;
mod folder;
mod folder_disk;
mod folders;
mod held_file;
mod identity;
mod opened;
mod regular;

pub use disks::{dump_disks, shard_disk, store_disks};
pub use file_name::FileName;
pub use folder_disk::FolderDisk;
pub use held_file::HeldFile;
