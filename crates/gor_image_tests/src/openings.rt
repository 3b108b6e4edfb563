//! Openings of a shard's device, and the files that the last mark replaces.
ghost use Rattle.std.specs.Prelude.{◌≤◌, IsTrue, IfOk, IfSome, OnOk};
ghost use Rattle.gor_disk.specs.Disk.{NothingPending};
ghost use Rattle.gor_marks.specs.Spelling.{IsHome};
ghost use Rattle.gor_model.specs.Windows.{slots_of_a_shard};

use crate::laid::{KEYS, LOG, MARKS, write};
use crate::reader::has;
use crate::reads::looks;
use crate::sealed::lay_store;
use gor_disk::{Disk, DiskCall, DiskFailed, DiskKind, FileId, MemoryDisk};
use gor_flush::{Device, NoDevice, drop_old};
use gor_image::ImageFault;
use gor_marks::Mark;
use gor_recover::OpenFault;
use std::alloc::Global;

const SHUT: [u8; 1] = [0];

// The disk of a shard once it is opened and closed.
fn opened<D: Disk>(
    alloc: Global,
    disk: D,
    shards: u32,
    shard: u32,
    slots: u32,
) -> Result<D, OpenFault>
    requires home { IsHome shards shard }
    requires slots { slots ≤ slots_of_a_shard }
    requires pending { IsTrue D.tells → NothingPending (D.view disk) }
    ensures { IsTrue D.tells → IfOk result (λ after. NothingPending (D.view after)) }
{
    match Device::open(alloc, disk, shards, shard, slots) {
        Ok(found) => {
            let (device, _recovered) = found;
            Ok(device.close())
        }
        Err(refused) => {
            let NoDevice { fault, .. } = refused;
            Err(fault)
        }
    }
}

fn put_file<D: Disk>(disk: &mut D, file: FileId, bytes: &[u8]) -> Result<(), DiskFailed>
    requires { IsTrue D.tells → NothingPending (D.view disk.old) }
    ensures { IsTrue D.tells → OnOk result (NothingPending (D.view disk.new)) }
{
    disk.write_at(file, 0, bytes)?;
    disk.sync(file)
}

fn put_store<D: Disk>(disk: &mut D) -> Result<(), DiskFailed>
    requires { IsTrue D.tells → NothingPending (D.view disk.old) }
    ensures { IsTrue D.tells → OnOk result (NothingPending (D.view disk.new)) }
{
    put_file(disk, FileId::Marks, &MARKS)?;
    put_file(disk, FileId::Keys(0), &KEYS)?;
    put_file(disk, FileId::Log(0), &LOG)
}

// Whether opening the worked store with so many slots is refused with this fault.
fn is_refused(alloc: Global, shards: u32, shard: u32, slots: u32, fault: ImageFault) -> bool
    requires home { IsHome shards shard }
    requires slots { slots ≤ slots_of_a_shard }
{
    let mut disk = MemoryDisk::new(alloc);
    if put_store(&mut disk).is_err() {
        return false;
    }
    match opened(alloc, disk, shards, shard, slots) {
        Ok(_disk) => false,
        Err(found) => found == OpenFault::Image(fault),
    }
}

// The one shard of a store with four slots, opened on an empty disk.
fn fresh(alloc: Global) -> Result<MemoryDisk, OpenFault> {
    opened(alloc, MemoryDisk::new(alloc), 1, 0, 4)
}

// And opened again.
fn opened_again(alloc: Global) -> Result<MemoryDisk, OpenFault> {
    match opened(alloc, MemoryDisk::new(alloc), 1, 0, 4) {
        Ok(disk) => opened(alloc, disk, 1, 0, 4),
        Err(fault) => Err(fault),
    }
}

#[test]
fn an_empty_disk_gets_its_first_mark(rt: HostRuntime) {
    let Ok(mut disk) = fresh(rt.alloc()) else {
        panic!(rt; "the empty disk was refused");
    };
    assert!(rt; has(rt.alloc(), &mut disk, FileId::Marks, &MARKS));
    assert!(rt; has(rt.alloc(), &mut disk, FileId::Keys(0), &SHUT));
    assert!(rt; has(rt.alloc(), &mut disk, FileId::Log(0), &SHUT));
}

// Whether calls look at the marks, and at nothing else, before the first that changes a file.
fn begins_with_marks(calls: &[DiskCall]) -> bool {
    let mut seen = false;
    for call in calls {
        if !looks(call) {
            return seen;
        }
        if call.file != FileId::Marks {
            return false;
        }
        seen = true;
    }
    false
}

#[test]
fn a_fresh_opening_looks_at_the_marks_alone_before_it_writes(rt: HostRuntime) {
    let Ok(disk) = fresh(rt.alloc()) else {
        panic!(rt; "the empty disk was refused");
    };
    assert!(rt; begins_with_marks(disk.calls()));
}

#[test]
fn it_opens_again_with_the_same_home(rt: HostRuntime) {
    let Ok(mut disk) = opened_again(rt.alloc()) else {
        panic!(rt; "the empty disk or its own store was refused");
    };
    assert!(rt; has(rt.alloc(), &mut disk, FileId::Marks, &MARKS));
}

#[test]
fn another_home_and_too_few_slots_are_refused(rt: HostRuntime) {
    let home = ImageFault::Home {
        found_shards: 1,
        found_shard: 0,
        asked_shards: 2,
        asked_shard: 1,
    };
    assert!(rt; is_refused(rt.alloc(), 2, 1, 4, home));
    let slots = ImageFault::Slots {
        needed: 1,
        given: 0,
    };
    assert!(rt; is_refused(rt.alloc(), 1, 0, 0, slots));
}

// Whether the cuts among some calls are of these files, one after another, each to no bytes.
fn cuts(calls: &[DiskCall], files: &[FileId]) -> bool {
    let mut at = 0;
    for call in calls {
        if call.kind == DiskKind::Cut {
            if at >= files.len() || call.file != files[at] || call.len != 0 {
                return false;
            }
            at += 1;
        }
    }
    at == files.len()
}

// Which of a list of files are cut, with two sealed marks of windows 3 and 15: the key list and the log before the second,
// the log that it drops, and the block file that is no longer live.
#[test]
fn replaced_files_are_cut(rt: HostRuntime) {
    let marks = [
        Mark::Home {
            shards: 1,
            shard: 0,
        },
        Mark::Sealed {
            window: 3,
            keys: 1,
            upto: 5,
            first_log: 0,
        },
        Mark::Sealed {
            window: 15,
            keys: 2,
            upto: 9,
            first_log: 2,
        },
    ];
    let mut disk = MemoryDisk::new(rt.alloc());
    assert!(rt; drop_old(&mut disk, &marks).is_ok());
    let cut = [
        FileId::Keys(1),
        FileId::Log(0),
        FileId::Log(1),
        FileId::Block(3),
    ];
    assert!(rt; cuts(disk.calls(), &cut));
}

// ---- an opening of a store with three sealed windows

// The last mark replaces the second of these and the block file of window 10. The others were replaced by the marks before it.
const LEFT_OVER: [FileId; 3] = [FileId::Keys(1), FileId::Keys(2), FileId::Log(1)];

// The store, with a byte in each file that a mark has replaced.
fn with_left_over(alloc: Global) -> Option<MemoryDisk>
    ensures { IfSome result (λ disk. NothingPending (⟦<MemoryDisk as Disk>⟧.view disk)) }
{
    let mut disk = MemoryDisk::new(alloc);
    if !lay_store(alloc, &mut disk) {
        return None;
    }
    for file in LEFT_OVER {
        if !write(&mut disk, file, 0, &[7]) {
            return None;
        }
    }
    disk.image(disk.calls().len() as u64, 1).ok()
}

fn opened_left_over(alloc: Global) -> Option<MemoryDisk> {
    let disk = with_left_over(alloc)?;
    opened(alloc, disk, 1, 0, 4).ok()
}

// The calls of its opening that change a file or make one stable.
const CUTS: [(DiskKind, FileId); 4] = [
    (DiskKind::Cut, FileId::Keys(2)),
    (DiskKind::Sync, FileId::Keys(2)),
    (DiskKind::Cut, FileId::Block(10)),
    (DiskKind::Sync, FileId::Block(10)),
];

// Whether the calls that do not only look are these, one after another, and each cut is to no bytes.
fn writes_are(calls: &[DiskCall], want: &[(DiskKind, FileId)]) -> bool {
    let mut at = 0;
    for call in calls {
        if !looks(call) {
            if at >= want.len() || (call.kind, call.file) != want[at] || call.len != 0 {
                return false;
            }
            at += 1;
        }
    }
    at == want.len()
}

// What is in these files then.
const AFTER: [(FileId, &[u8]); 4] = [
    (FileId::Keys(1), &[7]),
    (FileId::Keys(2), &[]),
    (FileId::Log(1), &[7]),
    (FileId::Block(10), &[]),
];

#[test]
fn an_opening_cuts_what_the_last_mark_replaces(rt: HostRuntime) {
    let Some(mut disk) = opened_left_over(rt.alloc()) else {
        panic!(rt; "the store was refused");
    };
    assert!(rt; writes_are(disk.calls(), &CUTS));
    for (file, bytes) in AFTER {
        assert!(rt; has(rt.alloc(), &mut disk, file, bytes), "{file:?}");
    }
}
