//! The disk that a store stands on: five calls on files, and what a crash at each moment may leave of them.
//!
//! The disk model is this project's own. It is data: a disk shows what a read gives, a clock of moments, and for each
//! moment and each file what a crash then may leave (`specs/Disk.antt`). The calls say how this data goes on, and nothing
//! else is known of a disk. What a crash leaves of one file is independent of what it leaves of another.
//!
//! - `disk`: the files' names, the trait `Disk` and its failure.
//! - `calls`: what was asked of a disk.
//! - `memory`: a disk in memory, which meets the trait and shows its images.
//! - `files`, `editing`: the files of a disk in memory.
//! - `tears`, `images`: what a crash may leave of them.
//! - `stamping`: a small caller over any disk, with a claim on every image of every moment in it.
#![tactic(auto)]

mod calls;
mod disk;
mod editing;
mod files;
mod images;
mod memory;
mod stamping;
mod tears;

pub use calls::{DiskCall, DiskKind};
pub use disk::{DeviceFault, Disk, DiskFailed, FileId};
pub use memory::MemoryDisk;
pub use stamping::stamp;
