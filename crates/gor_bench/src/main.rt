//! Figures of what the store's parts cost. Its words name the parts that it measures, in order; with no words it does nothing.
//!
//! - `part`: which words there are, and what each measures.
//! - `codes`: the codes of times and words.
//! - `blocks`: blocks, pushed and decoded.
//! - `cell`: a day of a cell, put, copied and decoded.
//! - `table`: a hall's take, mark and give, on one thread and on several.
//! - `shard`: puts and gets of a shard's lanes, on one thread and on several.
//! - `store`: the program's path, from a workload's text to the last flush.
//! - `recovery`: what a shard's files hold, read back.
//! - `phases`: workloads of puts and gets, answered on a store.
//! - `words`: the four series of words that parts measure.
//! - `report`: a table of figures, as it is printed.
//! - `fault`: why nothing was measured.
//! - `timed`: a disk that measures its syncs.
//! - `first`: the values of a hall of four series.
//! - `laying`: stores of many series on a disk in memory, laid down by the writers of their files.
//!
//! A figure is what one run took on one machine. Nothing is promised by it, and nothing is compared with it.
#![tactic(auto)]

mod blocks;
mod cell;
mod codes;
mod fault;
mod first;
mod laying;
mod part;
mod phases;
mod recovery;
mod report;
mod shard;
mod store;
mod table;
mod timed;
mod words;

use fault::Fault;
use part::Part;
use std::alloc::Global;
use std::process::ExitCode;
use std::sync::Wait;
use std::thread::Threads;
use std::time::Clock;
use std::{env, io};

/// The parts that the words after the program's name stand for.
fn parts_named(rt: &HostRuntime) -> Result<Vec<Part>, Fault> {
    let args = match env::args(rt) {
        Ok(args) => args,
        Err(error) if error.kind() == io::ErrorKind::OutOfMemory => return Err(Fault::Memory),
        Err(_) => return Err(Fault::Words),
    };
    let mut parts = Vec::new(rt.alloc());
    for word in args.skip(1) {
        let Some(part) = Part::of(word.as_str()) else {
            return Err(Fault::Words);
        };
        if parts.push(part).is_err() {
            return Err(Fault::Memory);
        }
    }
    Ok(parts)
}

/// Measures each part in turn, and prints its figures.
fn measure_all<R: Threads + Wait + Sync + Clock + Print>(
    rt: &R,
    host: &HostRuntime,
    alloc: Global,
    parts: &[Part],
) -> Result<(), Fault> {
    for part in parts {
        part.measure(rt, host, alloc)?;
        if println!(rt; "").is_err() {
            return Err(Fault::Output);
        }
    }
    Ok(())
}

fn main(rt: HostRuntime) -> ExitCode {
    let done = match parts_named(&rt) {
        Ok(parts) => measure_all(&rt, &rt, rt.alloc(), &parts),
        Err(fault) => Err(fault),
    };
    match done {
        Ok(()) => ExitCode::SUCCESS,
        Err(fault) => {
            let (number, why) = fault.told();
            let _ = eprintln!(rt; "gor_bench: {why}");
            ExitCode::from(number)
        }
    }
}
