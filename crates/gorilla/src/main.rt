//! A store of time series: it reads a workload from standard input, runs it on a shard that lies in a folder, and writes the
//! answers; or it writes what the files of a shard hold.
#![tactic(auto)]

mod streams;

use gor_folder::{FolderDisk, dump_disks, store_disks};
use gor_outside::NoPause;
use gor_run::{Outcome, Status, dump, run};
use std::env;
use std::io::{self, BufReader};
use std::process::ExitCode;
use streams::{InputStream, OutputStream};

/// The words after the program's name, or how a run ends that has none: words that are not UTF-8 are no command.
fn words_given(rt: &HostRuntime) -> Result<Vec<String>, Status> {
    let args = match env::args(rt) {
        Ok(args) => args,
        Err(error) if error.kind() == io::ErrorKind::OutOfMemory => return Err(Status::NoMemory),
        Err(_) => return Err(Status::Words),
    };
    let mut words = Vec::new(rt.alloc());
    for word in args.skip(1) {
        if words.push(word).is_err() {
            return Err(Status::NoMemory);
        }
    }
    Ok(words)
}

/// Closes all disks. The first shard whose disk could not be closed well, if one could not.
fn close_all(disks: &mut [FolderDisk<HostRuntime>]) -> Option<u32> {
    let mut unclosed = None;
    for (shard, disk) in (0u32..16).zip(disks.iter_mut()) {
        if disk.close().is_err() && unclosed.is_none() {
            unclosed = Some(shard);
        }
    }
    unclosed
}

/// The status once the disks are closed: one that could not be closed well has failed.
fn after_closing(status: Status, unclosed: Option<u32>) -> Status {
    match (status, unclosed) {
        (Status::Ok | Status::WriteFault, Some(shard)) => Status::DeviceFault { shard },
        _ => status,
    }
}

/// Closes the disks that a call gave back, and tells why one failed where the status says so.
fn ended(rt: &HostRuntime, outcome: Outcome<FolderDisk<HostRuntime>>) -> Status {
    let Outcome { status, mut disks } = outcome;
    let status = after_closing(status, close_all(&mut disks));
    if let Status::DeviceFault { shard } = status
        && let Some(disk) = disks.get(shard as usize)
        && let Some(told) = disk.cause()
    {
        let _ = eprintln!(rt; "gorilla: {told}");
    }
    status
}

/// Dumps the store in the folder `store` to standard output.
fn dump_store(rt: &HostRuntime, words: &[String]) -> Status {
    let Ok(disks) = dump_disks(rt, "store") else {
        return Status::NoMemory;
    };
    let mut sink = OutputStream::new(io::writer(rt));
    ended(rt, dump(rt, words, &mut sink, disks))
}

/// Whether the words are to be read as those of a dump.
fn is_dump(words: &[String]) -> bool {
    words.first().is_some_and(|word| word.as_str() == "dump")
}

/// It does what the program was called for: a dump where the first word is `dump`, and else a run, on the store in the folder
/// `store`, standard input and standard output.
fn main(rt: HostRuntime) -> ExitCode {
    let status = match words_given(&rt) {
        Ok(words) if is_dump(&words) => dump_store(&rt, &words),
        Ok(words) => match store_disks(&rt, "store") {
            Ok(disks) => {
                let mut source = InputStream::new(rt.reader());
                let mut sink = OutputStream::new(io::writer(&rt));
                let outcome = run(&rt, &words, &mut source, &mut sink, disks, &NoPause);
                ended(&rt, outcome)
            }
            Err(_) => Status::NoMemory,
        },
        Err(status) => status,
    };
    if status != Status::Ok {
        let _ = eprintln!(rt; "{status}");
    }
    ExitCode::from(status.number())
}
