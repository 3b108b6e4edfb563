//! Recovery: what a shard's files hold, read back from its log and from its block files.

use crate::fault::Fault;
use crate::laying::{SERIES, lay_blocks, lay_log};
use crate::report::{nanos_since, now, print_row, tenths};
use gor_disk::MemoryDisk;
use gor_recover::{OpenFault, Recovered, recover};
use std::alloc::Global;
use std::time::Clock;

/// How often each store is recovered.
const ROUNDS: u32 = 5;

/// The points of all series.
fn points_in(found: &Recovered) -> u64 {
    let mut points = 0u64;
    for row in &found.rows {
        points = points.saturating_add(row.points.len() as u64);
    }
    points
}

/// The nanoseconds that a recovery takes, in which each point is found.
fn time_recovery<R: Clock>(
    rt: &R,
    alloc: Global,
    disk: &mut MemoryDisk,
    wanted: u64,
) -> Result<u64, Fault> {
    let begin = now(rt)?;
    match recover(alloc, disk, 1, 0, SERIES as u32) {
        Ok(found) => {
            let nanos = nanos_since(rt, begin);
            if points_in(&found) == wanted {
                nanos
            } else {
                Err(Fault::Wrong)
            }
        }
        Err(OpenFault::Image(_)) => Err(Fault::Wrong),
        Err(_) => Err(Fault::Memory),
    }
}

/// A row of a store of so many windows, all points of which stand in its log, or in block files.
fn measure_store<R: Clock + Print>(
    rt: &R,
    alloc: Global,
    label: &str,
    disk: &mut MemoryDisk,
    is_log: bool,
    windows: u8,
) -> Result<(), Fault> {
    if is_log {
        lay_log(alloc, disk, windows)?;
    } else {
        lay_blocks(alloc, disk, windows)?;
    }
    let points = windows as u64 * 100_000;
    let mut least = u64::MAX;
    for _ in 0..ROUNDS {
        least = least.min(time_recovery(rt, alloc, disk, points)?);
    }
    let rate = tenths(points.saturating_mul(1_000_000_000), least);
    let figures = [tenths(least, 1_000_000), tenths(least, points), rate];
    print_row(rt, label, &[], &figures)
}

/// The rows: where the points of a store stand, and in how many windows.
const ROWS: [(&str, bool, u8); 4] = [
    ("log, 100,000", true, 1),
    ("log, 1,000,000", true, 10),
    ("blocks, 100,000", false, 1),
    ("blocks, 1,000,000", false, 10),
];

/// A log and block files, each with a hundred thousand points and with a million.
pub fn measure<R: Clock + Print>(rt: &R, alloc: Global) -> Result<(), Fault> {
    let columns = ["ms a recovery", "ns a point", "points a second"];
    print_row(rt, "recovery", &columns, &[])?;
    for (label, is_log, windows) in ROWS {
        let mut disk = MemoryDisk::new(alloc);
        measure_store(rt, alloc, label, &mut disk, is_log, windows)?;
    }
    Ok(())
}
