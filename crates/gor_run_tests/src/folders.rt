//! Runs and dumps of a store in folders.
ghost use Rattle.std.specs.Prelude.{◌≡◌, ◌<◌, ◌^◌, length, None};

use crate::dumps::{KEYS, LOG, MARKS, TEXT};
use crate::machine::Fails::Nothing;
use crate::machine::Input::Bytes;
use crate::machine::{call_of, called_dump, called_run};
use crate::steps::write_store;
use gor_folder::{FolderDisk, dump_disks, shard_disk, store_disks};
use gor_outside::{Failed, MemorySink, NoPause, Sink};
use gor_run::{Outcome, Status};
use std::alloc::AllocError;
use std::fs;
use std::process::Abort;
use std::sync::Wait;
use std::test::Fail;
use std::thread::Threads;

/// A step on the store in a folder, with what is wanted.
#[derive(Clone, Copy)]
enum Step {
    /// A run on this input ends well with this text.
    Run(&'static [u8], &'static [u8]),
    /// A dump ends so, with this text.
    Dump(Status, &'static [u8]),
    /// The store of one point is written.
    Lay,
    /// A file or a folder of this path is there, or is not.
    Stands(&'static str, bool),
    /// An empty file of this path is made.
    Make(&'static str),
    /// A folder of this path goes, with all that it holds.
    Remove(&'static str),
}

/// How a run on the disks of a folder ends, where sixteen disks come back.
fn run_on<R: AllocGlobal + Threads + Wait + Sync, K: Sink>(
    rt: &R,
    disks: Vec<FolderDisk<HostRuntime>>,
    input: &'static [u8],
    sink: &mut K,
) -> Result<Option<Status>, AllocError>
    requires { length disks.items ≡ 16 }
{
    let mut call = call_of(rt.alloc(), "run --shards 1", Bytes(input), Nothing, 1)?;
    let outcome = called_run(rt, &call.words, &mut call.source, sink, disks, &NoPause);
    Ok(status_of(&outcome))
}

/// How a call ended, where sixteen disks came back.
fn status_of(outcome: &Outcome<FolderDisk<HostRuntime>>) -> Option<Status> {
    if outcome.disks.len() == 16 {
        Some(outcome.status)
    } else {
        None
    }
}

/// Whether a run on the disks of a folder ends well, with this text.
fn is_run<R: AllocGlobal + Threads + Wait + Sync>(
    rt: &R,
    disks: Vec<FolderDisk<HostRuntime>>,
    input: &'static [u8],
    text: &[u8],
) -> Result<bool, AllocError>
    requires { length disks.items ≡ 16 }
{
    let mut sink = MemorySink::new(rt.alloc(), 7, Vec::new(rt.alloc()));
    let status = run_on(rt, disks, input, &mut sink)?;
    Ok(status == Some(Status::Ok) && sink.bytes() == text)
}

/// A dump of the disks of a folder.
fn is_dump(
    rt: &HostRuntime,
    disks: Vec<FolderDisk<HostRuntime>>,
    status: Status,
    text: &[u8],
) -> Result<bool, AllocError>
    requires { length disks.items ≡ 16 }
{
    let mut call = call_of(rt.alloc(), "dump", Bytes(b""), Nothing, 7)?;
    let outcome = called_dump(rt, &call.words, &mut call.sink, disks);
    Ok(status_of(&outcome) == Some(status) && call.sink.bytes() == text)
}

fn lays(rt: &HostRuntime, store: &str) -> Result<bool, AllocError> {
    let mut disk = shard_disk(rt, store, 0)?;
    Ok(write_store(&mut disk, &MARKS, &KEYS, &LOG).is_ok())
}

/// Does a step on the store in a folder, and says whether it went as is wanted.
fn is_done<R: AllocGlobal + Threads + Wait + Sync>(
    rt: &R,
    host: &HostRuntime,
    store: &str,
    step: Step,
) -> Result<bool, AllocError> {
    match step {
        Step::Run(input, text) => is_run(rt, store_disks(host, store)?, input, text),
        Step::Dump(status, text) => is_dump(host, dump_disks(host, store)?, status, text),
        Step::Lay => lays(host, store),
        Step::Stands(path, wanted) => Ok(fs::exists(host, path).is_ok_and(|found| found == wanted)),
        Step::Make(path) => Ok(fs::write(host, path, b"").is_ok()),
        Step::Remove(path) => Ok(fs::remove_dir_all(host, path).is_ok()),
    }
}

/// Does some steps one after another on the store in a folder that is not there, and removes it.
fn follow<R: AllocGlobal + Threads + Wait + Sync + Abort>(
    rt: &R,
    host: &HostRuntime,
    store: &str,
    steps: &[Step],
) -> Result<(), AllocError> {
    let _ = fs::remove_dir_all(host, store);
    for (place, step) in steps.iter().enumerate() {
        let is_so = is_done(rt, host, store, *step)?;
        assert!(rt; is_so, "{store}: step {place}");
    }
    assert!(rt; fs::remove_dir_all(host, store).is_ok(), "{store}: removed");
    Ok(())
}

const BOTH: &[u8] =
    b"0 a floor 0 points 2 10:0000000000000001 70:0000000000000003\n0 Web floor 0 points 1 20:0000000000000002\n";

const RESTARTS: [Step; 7] = [
    Step::Run(
        b"0 put a 10 0000000000000001\n0 put Web 20 0000000000000002\n0 flush 0\n0 put a 70 0000000000000003\n",
        b"0 0:0 stored\n0 0:1 stored\n0 0:2 take 2\n0 0:3 done 2\n0 0:4 stored\n",
    ),
    Step::Stands("restart_of_a_test/shard.0/marks", true),
    Step::Stands("restart_of_a_test/shard.1", false),
    // The last put was flushed as the run ended. A dump leaves all as it is.
    Step::Dump(Status::Ok, BOTH),
    Step::Dump(Status::Ok, BOTH),
    // Another run finds it, and goes on: the last times, the names as they were first spelled, and the numbers from 0.
    Step::Run(
        b"0 get A 0 99\n0 put web 19 0000000000000004\n0 put WEB 21 0000000000000005\n0 del a\n",
        b"0 0:0 points 2 10:0000000000000001 70:0000000000000003\n0 0:1 late 20\n0 0:2 stored\n0 0:3 gone\n",
    ),
    Step::Dump(
        Status::Ok,
        b"0 Web floor 0 points 2 20:0000000000000002 21:0000000000000005\n",
    ),
];

#[test]
fn a_store_in_folders_is_restarted(rt: HostRuntime) -> Result<(), AllocError> {
    follow(&rt, &rt, "restart_of_a_test", &RESTARTS)
}

const DUMPS: [Step; 8] = [
    // No folder is an empty store, and none is made.
    Step::Dump(Status::Ok, b""),
    Step::Stands("store_of_a_test", false),
    Step::Lay,
    Step::Dump(Status::Ok, TEXT),
    Step::Stands("store_of_a_test/shard.1", false),
    // A file stands where the folder of shard 0 should be.
    Step::Remove("store_of_a_test/shard.0"),
    Step::Make("store_of_a_test/shard.0"),
    Step::Dump(Status::DeviceFault { shard: 0 }, b""),
];

#[test]
fn a_store_in_folders_is_dumped(rt: HostRuntime) -> Result<(), AllocError> {
    follow(&rt, &rt, "store_of_a_test", &DUMPS)
}

/// A sink that notes at each write how many bytes a file has, and fails where it is absent.
#[derive(Drop)]
struct Watcher {
    rt: HostRuntime,
    file: &'static str,
    lengths: Vec<u64>,
    faults: u64,
    ghost in_range: { faults < 2 ^ 64 },
}

impl Sink for Watcher {
    ghost held = { λ _. None };

    ghost faults = { λ s. s.faults };

    ghost faults_fit = { λ s. s.in_range };

    fn write(&mut self, piece: &[u8]) -> Result<usize, Failed> {
        if let Ok(found) = fs::metadata(&self.rt, self.file)
            && self.lengths.push(found.len()).is_ok()
        {
            return Ok(piece.len());
        }
        self.faults = self.faults.saturating_add(1);
        Err(Failed)
    }
}

#[test]
fn a_flush_is_in_the_folder_before_it_is_told(rt: HostRuntime) -> Result<(), Fail> {
    let store = "watched_of_a_test";
    let _ = fs::remove_dir_all(&rt, store);
    let input =
        b"0 put a 10 0000000000000001\n0 flush 0\njoin\n0 put a 70 0000000000000002\n0 flush 0\n";
    let mut sink = Watcher {
        rt: rt.clone()?,
        file: "watched_of_a_test/shard.0/log.0",
        lengths: Vec::new(rt.alloc()),
        faults: 0,
    };
    let status = run_on(&rt, store_disks(&rt, store)?, input, &mut sink)?;
    assert!(rt; status == Some(Status::Ok));
    // The first gate has a byte. Each flush adds a length of 8, a batch of one put of 17 and 21, and a gate.
    assert!(rt; sink.lengths.as_slice() == [48u64, 95].as_slice());
    fs::remove_dir_all(&rt, store)?;
    Ok(())
}
