//! Tests of the disk, of the formats of files and of the journal by their public calls, a file for each library.
//!
//! A test is data: a table of rows with the answers that are wanted, and one small function that looks at a row.
//!
//! - `disks`: the disk in memory; `silent`: a disk that tells nothing.
//! - `gates`: gated files; `pairs`: two of them that get a body each.
//! - `marks`, `keys`, `logs`, `slabs`: the formats of what stands in them.
//! - `journals`: the changes that wait for a flush. `names`: names for their records.
#![tactic(auto)]

#[cfg(test)]
mod disks;
#[cfg(test)]
mod gates;
#[cfg(test)]
mod journals;
#[cfg(test)]
mod keys;
#[cfg(test)]
mod logs;
#[cfg(test)]
mod marks;
#[cfg(test)]
mod names;
#[cfg(test)]
mod pairs;
#[cfg(test)]
mod silent;
#[cfg(test)]
mod slabs;
