//! The program's path: a workload of puts is read, answered on a store that lies in a folder, and flushed.
ghost use Rattle.gor_text.specs.Workloads.{phase_lines};
ghost use Rattle.gor_bench.specs.Puts.{IsSmall};

use crate::fault::Fault;
use crate::phases::{Load, push_puts, read_phase, run_phases};
use crate::report::{nanos_since, now, print_row, tenths};
use crate::timed::TimedDisk;
use gor_folder::{FolderDisk, store_disks};
use gor_text::Phase;
use std::alloc::AllocError;
use std::fs;
use std::sync::Wait;
use std::thread::Threads;
use std::time::Clock;

/// The series, each of which is put to once a minute, and the minutes.
const SERIES: u32 = 400;

const MINUTES: u32 = 750;

const PUTS: u32 = 300_000;

const ROUNDS: u32 = 5;

/// The folder of the store, below the one that the program runs in.
const FOLDER: &str = "bench_store";

/// A disk of a store in a folder, with the time that its syncs take.
type StoreDisk = TimedDisk<FolderDisk<HostRuntime>, HostRuntime>;

/// The disks of a store, of which the first alone is called.
fn disks_in(host: &HostRuntime) -> Result<Vec<StoreDisk>, AllocError> {
    let mut disks = Vec::new(host.alloc());
    for disk in store_disks(host, FOLDER)? {
        disks.push(TimedDisk {
            disk,
            clock: host.clone()?,
            syncs: 0,
            nanos: 0,
        })?;
    }
    Ok(disks)
}

/// What a run took: the nanoseconds of all, of the reading and of its syncs, and how many these were.
#[derive(Clone, Copy)]
struct Run {
    whole: u64,
    reading: u64,
    syncing: u64,
    syncs: u64,
}

/// Runs a phase of puts on a new store in a folder that is not there, and gives the nanoseconds and the count of its syncs. The
/// disks keep handles of the host, since a handle of which only bounds are known may not go with its disk to another thread.
fn run_puts<R: Threads + Wait + Sync + Clock>(
    rt: &R,
    host: &HostRuntime,
    puts: &Phase,
    none: &Phase,
) -> Result<(u64, u64), Fault>
    requires puts { IsSmall (phase_lines puts.now) }
    requires none { IsSmall (phase_lines none.now) }
{
    let ended = run_phases(rt, host.alloc(), disks_in(host)?, puts, none)?;
    match ended.disks.first() {
        Some(disk) if ended.served.puts.stored == PUTS as u64 => Ok((disk.nanos, disk.syncs)),
        _ => Err(Fault::Wrong),
    }
}

/// Reads a text, and runs it on a new store.
fn run_text<R: Threads + Wait + Sync + Clock>(
    rt: &R,
    host: &HostRuntime,
    text: &[u8],
) -> Result<Run, Fault> {
    let none = read_phase(host.alloc(), b"")?;
    let begin = now(rt)?;
    let puts = read_phase(host.alloc(), text)?;
    let reading = nanos_since(rt, begin)?;
    let (syncing, syncs) = run_puts(rt, host, &puts, &none)?;
    let whole = nanos_since(rt, begin)?;
    Ok(Run {
        whole,
        reading,
        syncing,
        syncs,
    })
}

/// The fastest of some rounds, each in a folder of its own, which is gone before and after.
fn fastest_run<R: Threads + Wait + Sync + Clock>(
    rt: &R,
    host: &HostRuntime,
    text: &[u8],
) -> Result<Run, Fault> {
    let mut fastest = Run {
        whole: u64::MAX,
        reading: 0,
        syncing: 0,
        syncs: 0,
    };
    for _ in 0..ROUNDS {
        let _ = fs::remove_dir_all(host, FOLDER);
        let run = run_text(rt, host, text);
        let _ = fs::remove_dir_all(host, FOLDER);
        let run = run?;
        if run.whole < fastest.whole {
            fastest = run;
        }
    }
    Ok(fastest)
}

/// A row: the puts on so many lanes.
fn measure_lanes<R: Threads + Wait + Sync + Clock + Print>(
    rt: &R,
    host: &HostRuntime,
    label: &str,
    lanes: u32,
) -> Result<(), Fault> {
    let load = Load {
        lanes,
        names: SERIES,
        lines: SERIES,
        minutes: MINUTES,
    };
    let mut text = Vec::new(host.alloc());
    push_puts(host.alloc(), &mut text, load)?;
    let run = fastest_run(rt, host, &text)?;
    let puts = PUTS as u64;
    let rate = tenths(puts * 1_000_000_000, run.whole);
    let share = tenths(run.syncing.saturating_mul(100), run.whole);
    let (put, read) = (tenths(run.whole, puts), tenths(run.reading, puts));
    print_row(
        rt,
        label,
        &[],
        &[rate, put, read, share, tenths(run.syncs, 1)],
    )
}

/// The same puts on one lane and on four.
pub fn measure<R: Threads + Wait + Sync + Clock + Print>(
    rt: &R,
    host: &HostRuntime,
) -> Result<(), Fault> {
    let columns = [
        "puts a second",
        "ns a put",
        "ns a put read",
        "% in syncs",
        "syncs",
    ];
    print_row(rt, "store", &columns, &[])?;
    measure_lanes(rt, host, "1 lane", 1)?;
    measure_lanes(rt, host, "4 lanes", 4)
}
