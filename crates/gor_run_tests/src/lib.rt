//! Tests of the two top calls: what a run and a dump answer, and what stands on the disk afterwards.
//!
//! - `machine`: one run or one dump on a disk in memory, beside fifteen that are not to be called.
//! - `steps`: a test as a list of steps on the disk of shard 0, each with the answer that is wanted.
//! - `answers`: workloads, words, lines, faults of source and sink.
//! - `dumps`: dumps of stores that were written byte by byte.
//! - `texts`: the numbers and texts of the statuses.
//! - `stops`: stops of the machine, a disk that fails, and what the files then hold.
//! - `restarts`: runs one after another.
//! - `composed`: a run on what a stop of another one left, at each moment.
//! - `lanes`: lanes beside each other.
//! - `pauses`: which reads pause, and what they are told.
//! - `folders`: runs and dumps on real folders.
#![tactic(auto)]

#[cfg(test)]
mod answers;
#[cfg(test)]
mod composed;
#[cfg(test)]
mod dumps;
#[cfg(test)]
mod folders;
#[cfg(test)]
mod lanes;
#[cfg(test)]
mod machine;
#[cfg(test)]
mod pauses;
#[cfg(test)]
mod restarts;
#[cfg(test)]
mod steps;
#[cfg(test)]
mod stops;
#[cfg(test)]
mod texts;
