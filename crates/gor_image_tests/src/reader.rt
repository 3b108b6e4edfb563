//! A plain and slow reader of the first key list and the first log.

use crate::changes::{A_FIRST, A_THEN, C_THEN};
use gor_disk::{Disk, FileId, MemoryDisk};
use gor_gate::{Body, read_all};
use gor_keys::{KeyRecord, read_keys};
use gor_log::{LogBatch, LogRecord, read_log};
use gor_name::Name;
use std::alloc::Global;

fn bodies_of(alloc: Global, disk: &mut MemoryDisk, file: FileId) -> Option<Vec<Body>> {
    match read_all(alloc, disk, file) {
        Ok((_gated, bodies)) => Some(bodies),
        Err(_) => None,
    }
}

// Puts the batches of some bodies into a list; whether all are read.
fn push_batches(alloc: Global, bodies: &[Body], batches: &mut Vec<LogBatch>) -> bool {
    for body in bodies {
        let Ok(batch) = read_log(alloc, &body.bytes) else {
            return false;
        };
        if batches.push(batch).is_err() {
            return false;
        }
    }
    true
}

fn is_covered(batches: &[LogBatch], number: u64) -> bool {
    batches
        .iter()
        .any(|batch| batch.first <= number && number <= batch.last)
}

#[derive(Drop)]
struct Series {
    uid: u64,
    slot: u32,
    name: Name,
}

fn begin(list: &mut Vec<Series>, uid: u64, slot: u32, name: &Name) -> bool {
    let Ok(name) = name.copy() else {
        return false;
    };
    list.push(Series { uid, slot, name }).is_ok()
}

// What a record of the key list makes of the series that stand.
fn read_record(list: &mut Vec<Series>, record: &KeyRecord, batches: &[LogBatch]) -> bool {
    match record {
        KeyRecord::Create {
            number,
            slot,
            name,
            ..
        } if is_covered(batches, *number) => begin(list, *number, *slot, name),
        KeyRecord::Delete { number, slot } if is_covered(batches, *number) => {
            list.retain(|series| series.slot != *slot);
            true
        }
        _ => true,
    }
}

// What the records of a body make of them; whether it is read.
fn read_body(alloc: Global, list: &mut Vec<Series>, body: &Body, batches: &[LogBatch]) -> bool {
    let Ok(keys) = read_keys(alloc, &body.bytes, false) else {
        return false;
    };
    for record in &keys.records {
        if !read_record(list, record, batches) {
            return false;
        }
    }
    true
}

fn read_bodies(
    alloc: Global,
    list: &mut Vec<Series>,
    bodies: &[Body],
    batches: &[LogBatch],
) -> bool {
    for body in bodies {
        if !read_body(alloc, list, body, batches) {
            return false;
        }
    }
    true
}

// How many of the points the puts of a batch are, from the one at `seen` on; none where a put is another.
fn points_in(batch: &LogBatch, series: u64, points: &[(u64, u64)], seen: usize) -> Option<usize> {
    let mut seen = seen;
    for record in &batch.records {
        if let LogRecord::Put { uid, time, word } = record {
            if *uid == series {
                if points.get(seen) != Some(&(*time, *word)) {
                    return None;
                }
                seen = seen.saturating_add(1);
            }
        }
    }
    Some(seen)
}

// Whether a series has these points.
fn has_points(batches: &[LogBatch], series: u64, points: &[(u64, u64)]) -> bool {
    let mut seen = 0;
    for batch in batches {
        match points_in(batch, series, points, seen) {
            Some(more) => seen = more,
            None => return false,
        }
    }
    seen == points.len()
}

fn is_series(batches: &[LogBatch], series: &Series, name: &str, points: &[(u64, u64)]) -> bool {
    series.name.text() == name && has_points(batches, series.uid, points)
}

// How many flushes made this map; none where it is another.
fn flushes_of(batches: &[LogBatch], list: &[Series]) -> Option<usize> {
    match list {
        [] => Some(0),
        [a] if is_series(batches, a, "a", &A_FIRST) => Some(1),
        [a, c] if is_series(batches, a, "a", &A_THEN) && is_series(batches, c, "c", &C_THEN) => {
            Some(2)
        }
        _ => None,
    }
}

/// How many flushes made the map of a disk; none where it has another, or is not read.
pub(crate) fn flushes_on(alloc: Global, disk: &mut MemoryDisk) -> Option<usize> {
    let mut batches = Vec::new(alloc);
    let mut list = Vec::new(alloc);
    let logs = bodies_of(alloc, disk, FileId::Log(0))?;
    let keys = bodies_of(alloc, disk, FileId::Keys(0))?;
    if !push_batches(alloc, &logs, &mut batches)
        || !read_bodies(alloc, &mut list, &keys, &batches)
    {
        return None;
    }
    flushes_of(&batches, &list)
}

/// Whether a file has these bytes.
pub(crate) fn has(alloc: Global, disk: &mut MemoryDisk, file: FileId, want: &[u8]) -> bool {
    let Ok(len) = disk.len(file) else {
        return false;
    };
    let Ok(mut bytes) = vec![in alloc; 0u8; len as usize] else {
        return false;
    };
    disk.read_at(file, 0, bytes.as_mut_slice()).is_ok() && bytes.as_slice() == want
}
