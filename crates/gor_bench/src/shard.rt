//! Puts and gets of the lanes of a shard: on one thread, and on two and four with a name for each and with one for all.
ghost use Rattle.std.specs.Prelude.{IfOk};
ghost use Rattle.std.specs.List.{AllByRecursion};
ghost use Rattle.gor_disk.specs.Disk.{NothingPending};
ghost use Rattle.gor_text.specs.Workloads.{phase_lines};
ghost use Rattle.gor_bench.specs.Puts.{IsSmall};

use crate::fault::Fault;
use crate::phases::{Load, Served, push_gets, push_puts, read_phase, run_phases};
use crate::report::{print_row, tenths};
use gor_disk::{Disk, MemoryDisk};
use gor_text::Phase;
use std::alloc::{AllocError, Global};
use std::sync::Wait;
use std::thread::Threads;
use std::time::Clock;

/// The puts that each lane makes, and then the gets, and how often all are made anew.
const PUTS: u32 = 20_000;

const GETS: u32 = 5_000;

const ROUNDS: u32 = 10;

fn memory_disks(alloc: Global) -> Result<Vec<MemoryDisk>, AllocError>
    ensures { IfOk result (λ disks. AllByRecursion (λ d. NothingPending (⟦<MemoryDisk as Disk>⟧.view d)) disks.items) }
{
    Ok(vec![in alloc;
        MemoryDisk::new(alloc),
        MemoryDisk::new(alloc),
        MemoryDisk::new(alloc),
        MemoryDisk::new(alloc),
        MemoryDisk::new(alloc),
        MemoryDisk::new(alloc),
        MemoryDisk::new(alloc),
        MemoryDisk::new(alloc),
        MemoryDisk::new(alloc),
        MemoryDisk::new(alloc),
        MemoryDisk::new(alloc),
        MemoryDisk::new(alloc),
        MemoryDisk::new(alloc),
        MemoryDisk::new(alloc),
        MemoryDisk::new(alloc),
        MemoryDisk::new(alloc),
    ]?)
}

/// The nanoseconds of the puts and of the gets of all lanes, each in its fastest round on a new shard. Each put has to be stored
/// or late, and each get has to have two hours of points.
fn fastest_lanes<R: Threads + Wait + Sync + Clock>(
    rt: &R,
    alloc: Global,
    lanes: u32,
    puts: &Phase,
    gets: &Phase,
) -> Result<(u64, u64), Fault>
    requires puts { IsSmall (phase_lines puts.now) }
    requires gets { IsSmall (phase_lines gets.now) }
{
    let (mut put, mut get) = (u64::MAX, u64::MAX);
    for _ in 0..ROUNDS {
        let served = run_phases(rt, alloc, memory_disks(alloc)?, puts, gets)?.served;
        let told = served.puts.stored.saturating_add(served.puts.late);
        if told != PUTS as u64 * lanes as u64 || served.gets.full != GETS as u64 * lanes as u64 {
            return Err(Fault::Wrong);
        }
        put = put.min(served.put_nanos);
        get = get.min(served.get_nanos);
    }
    Ok((put, get))
}

fn phase_of_puts(alloc: Global, load: Load) -> Result<Phase, Fault>
    ensures { IfOk result (λ phase. IsSmall (phase_lines phase)) }
{
    let mut text = Vec::new(alloc);
    push_puts(alloc, &mut text, load)?;
    read_phase(alloc, &text)
}

fn phase_of_gets(alloc: Global, load: Load) -> Result<Phase, Fault>
    ensures { IfOk result (λ phase. IsSmall (phase_lines phase)) }
{
    let mut text = Vec::new(alloc);
    push_gets(alloc, &mut text, load, GETS.saturating_mul(load.lanes))?;
    read_phase(alloc, &text)
}

/// A row of so many lanes: the time of a lane's put and get, and the time from put to put and from get to get of all lanes.
fn measure_lanes<R: Threads + Wait + Sync + Clock + Print>(
    rt: &R,
    alloc: Global,
    label: &str,
    lanes: u32,
    names: u32,
) -> Result<(), Fault> {
    let load = Load {
        lanes,
        names,
        lines: lanes,
        minutes: PUTS,
    };
    let puts = phase_of_puts(alloc, load)?;
    let gets = phase_of_gets(alloc, load)?;
    let (put, get) = fastest_lanes(rt, alloc, lanes, &puts, &gets)?;
    let (each_put, each_get) = (PUTS as u64, GETS as u64);
    let all_puts = tenths(put, each_put * lanes as u64);
    let all_gets = tenths(get, each_get * lanes as u64);
    let figures = [
        tenths(put, each_put),
        tenths(get, each_get),
        all_puts,
        all_gets,
    ];
    print_row(rt, label, &[], &figures)
}

/// The rows: their lanes and names.
const ROWS: [(&str, u32, u32); 5] = [
    ("1 thread", 1, 1),
    ("2 threads, 2 names", 2, 2),
    ("4 threads, 4 names", 4, 4),
    ("2 threads, 1 name", 2, 1),
    ("4 threads, 1 name", 4, 1),
];

/// One thread, then two and four with a name for each, then two and four with one name for all.
pub fn measure<R: Threads + Wait + Sync + Clock + Print>(
    rt: &R,
    alloc: Global,
) -> Result<(), Fault> {
    let columns = ["ns a put", "ns a get", "ns a put of all", "ns a get of all"];
    print_row(rt, "shard", &columns, &[])?;
    for (label, lanes, names) in ROWS {
        measure_lanes(rt, alloc, label, lanes, names)?;
    }
    Ok(())
}
