//! Tests of the files that a finish writes beside a store, and of its mark, by their public calls on a disk in memory.
//!
//! - `files`: the block file, the key list and the log, over what earlier finishes left in files of these names.
//! - `marks`: the mark, appended to the marks of a store.
//! - `turning`: all of them, one after another, by a caller over any disk.
//! - `looks`: what a disk, or an image of it, has in a file.
#![tactic(auto)]

#[cfg(test)]
mod files;
#[cfg(test)]
mod looks;
#[cfg(test)]
mod marks;
#[cfg(test)]
mod turning;
