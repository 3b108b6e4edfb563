//! Tests of folder disks, on real folders.
//!
//! - `watched`: the system's files, with a count of what is asked of them, and a call that fails.
//! - `steps`: steps on a disk and its folder, with what is wanted, and how they are done.
//! - `disks`: a folder is a disk, and the names in it.
//! - `beginnings`: what a disk finds at its first call.
//! - `sharing`: two disks of one folder.
//! - `changes`: what another does to the folder while a disk is in use.
//! - `counts`: what is asked of the system, and in which order.
//! - `blocks`: more block files than are held open.
//! - `runs`: whole runs and dumps.
//! - `failures`: what is told of a call that fails, and a call that a signal interrupts.
#![tactic(auto)]

#[cfg(test)]
mod beginnings;
#[cfg(test)]
mod blocks;
#[cfg(test)]
mod changes;
#[cfg(test)]
mod counts;
#[cfg(test)]
mod disks;
#[cfg(test)]
mod failures;
#[cfg(test)]
mod runs;
#[cfg(test)]
mod sharing;
#[cfg(test)]
mod steps;
#[cfg(test)]
mod watched;
