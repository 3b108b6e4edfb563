//! A test as a list of steps: files that are laid on a disk, and what an opening of them answers.

use crate::laid::{Bytes, bytes_of, one_block, write};
use crate::sealed::{lay_store, lay_turned};
use gor_disk::{FileId, MemoryDisk};
use gor_image::{DamageKind, ImageFault};
use gor_marks::Mark;
use gor_recover::{OpenFault, Recovered, RecoveredRow, recover};
use std::alloc::Global;
use std::process::Abort;

/// The shard that is asked for: one of how many, of which number, and with how many slots.
#[derive(Clone, Copy)]
pub(crate) struct Asked {
    pub shards: u32,
    pub shard: u32,
    pub slots: u32,
}

/// The one shard of a store, with two slots.
pub(crate) const ONLY: Asked = Asked {
    shards: 1,
    shard: 0,
    slots: 2,
};

/// What is done, or what is wanted of the last opening.
#[derive(Clone, Copy)]
pub(crate) enum Step<'a> {
    /// A case begins with an empty disk.
    Case(&'a str),
    /// A file gets bytes, from its start on.
    Lay(FileId, Bytes),
    /// It gets one block of uid 1, the worked one or that of the window before.
    LayBlock(FileId, bool),
    /// The files of the store with three sealed windows are laid.
    LayStore,
    /// The blocks of its window 11 are laid over these, the other way round.
    LayTurned,
    /// A byte of a file becomes another.
    Byte(FileId, u64, u8),
    /// The opening is refused for this fault.
    Refused(Asked, ImageFault),
    /// It is refused for damage of a file at this place, asked for with two slots.
    Damaged(FileId, u64, DamageKind),
    Opened(Asked),
    /// Whether the shard was fresh, its floor and its next number.
    Whole(bool, u64, u64),
    /// How many marks, logs and series there are.
    Counts(usize, usize, usize),
    Mark(usize, Mark),
    /// A log and the greatest window of its puts, at this index.
    Top(usize, u32, Option<u32>),
    /// The name, the slot, the uid and the floor of the series at this index.
    Row(usize, &'a str, u32, u64, u64),
    /// The count of its points.
    Points(usize, usize),
    /// One of them, by its index there: its time and its word.
    Point(usize, usize, u64, u64),
}

/// Why a shard is not opened; None where it is.
pub(crate) fn fault_of(alloc: Global, disk: &mut MemoryDisk, asked: Asked) -> Option<OpenFault> {
    recover(alloc, disk, asked.shards, asked.shard, asked.slots).err()
}

pub(crate) fn damage(file: FileId, at: u64, kind: DamageKind) -> OpenFault {
    OpenFault::Image(ImageFault::Damage { file, at, kind })
}

fn lay_block(alloc: Global, disk: &mut MemoryDisk, file: FileId, is_earlier: bool) -> bool {
    match one_block(alloc, is_earlier) {
        Ok(bytes) => write(disk, file, 0, &bytes),
        Err(_) => false,
    }
}

fn is_whole(found: &Recovered, fresh: bool, floor: u64, next: u64) -> bool {
    found.fresh == fresh && found.floor == floor && found.next == next
}

fn has_counts(found: &Recovered, marks: usize, tops: usize, rows: usize) -> bool {
    found.marks.len() == marks && found.tops.len() == tops && found.rows.len() == rows
}

fn has_mark(found: &Recovered, at: usize, mark: Mark) -> bool {
    found.marks.get(at).is_some_and(|it| *it == mark)
}

fn has_top(found: &Recovered, at: usize, log: u32, top: Option<u32>) -> bool {
    found
        .tops
        .get(at)
        .is_some_and(|it| it.log == log && it.top == top)
}

fn is_row(row: &RecoveredRow, name: &str, slot: u32, uid: u64, floor: u64) -> bool {
    row.name.text() == name && row.slot == slot && row.uid == uid && row.floor == floor
}

/// Whether a series has a point of this time and word at an index.
pub(crate) fn has_point(row: &RecoveredRow, at: usize, time: u64, word: u64) -> bool {
    row.points
        .as_slice()
        .get(at)
        .is_some_and(|it| it.time == time && it.word == word)
}

// Whether what was found is as a step wants it.
fn is_found(found: &Recovered, step: &Step) -> bool {
    match *step {
        Step::Whole(fresh, floor, next) => is_whole(found, fresh, floor, next),
        Step::Counts(marks, tops, rows) => has_counts(found, marks, tops, rows),
        Step::Mark(at, mark) => has_mark(found, at, mark),
        Step::Top(at, log, top) => has_top(found, at, log, top),
        Step::Row(at, name, slot, uid, floor) => match found.rows.get(at) {
            Some(row) => is_row(row, name, slot, uid, floor),
            None => false,
        },
        Step::Points(at, count) => match found.rows.get(at) {
            Some(row) => row.points.len() == count,
            None => false,
        },
        Step::Point(at, index, time, word) => match found.rows.get(at) {
            Some(row) => has_point(row, index, time, word),
            None => false,
        },
        _ => false,
    }
}

fn open(alloc: Global, disk: &mut MemoryDisk, asked: Asked) -> Option<Recovered> {
    recover(alloc, disk, asked.shards, asked.shard, asked.slots).ok()
}

// Does a step; whether it could be done, or what is wanted is so.
fn take(alloc: Global, disk: &mut MemoryDisk, found: &mut Option<Recovered>, step: &Step) -> bool {
    match *step {
        Step::Case(_) => {
            *disk = MemoryDisk::new(alloc);
            true
        }
        Step::Lay(file, bytes) => write(disk, file, 0, bytes_of(bytes)),
        Step::LayBlock(file, is_earlier) => lay_block(alloc, disk, file, is_earlier),
        Step::LayStore => lay_store(alloc, disk),
        Step::LayTurned => lay_turned(alloc, disk),
        Step::Byte(file, at, to) => write(disk, file, at, &[to]),
        Step::Refused(asked, fault) => {
            fault_of(alloc, disk, asked) == Some(OpenFault::Image(fault))
        }
        Step::Damaged(file, at, kind) => {
            fault_of(alloc, disk, ONLY) == Some(damage(file, at, kind))
        }
        Step::Opened(asked) => {
            *found = open(alloc, disk, asked);
            found.is_some()
        }
        _ => match found {
            Some(found) => is_found(found, step),
            None => false,
        },
    }
}

/// Does the steps, one after another.
pub(crate) fn run(rt: &impl Abort, alloc: Global, steps: &[Step]) {
    let mut disk = MemoryDisk::new(alloc);
    let mut found = None;
    let mut case = "";
    for (place, step) in steps.iter().enumerate() {
        if let Step::Case(name) = step {
            case = name;
        }
        let done = take(alloc, &mut disk, &mut found, step);
        assert!(rt; done, "{case}: step {place}");
    }
}
