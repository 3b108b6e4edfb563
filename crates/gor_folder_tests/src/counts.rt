//! What is asked of the system, and in which order.
use crate::steps::Step::{Close, Count, Folder, Len, Made, Put, Read, Run, Sync, Write};
use crate::steps::{Case, Row, follow};
use crate::watched::{Call, NO_PLAN};
use gor_disk::FileId;
use std::alloc::AllocError;

const MARKS: FileId = FileId::Marks;

const KEYS: FileId = FileId::Keys(0);

const LOG: FileId = FileId::Log(0);

const COUNTS: [Case; 5] = [
    Case(
        "nothing is done at first",
        NO_PLAN,
        &[
            Row(Made(Call::Look, 0), ""),
            Row(Made(Call::Open, 0), ""),
            Row(Made(Call::MakeFolder, 0), ""),
        ],
    ),
    Case(
        "a fresh store",
        NO_PLAN,
        &[
            Row(Len(MARKS, 0), ""),
            Row(Made(Call::MakeFolder, 2), ""),
            Row(Made(Call::Lock, 1), ""),
            // The shard's folder, the store's, and the one that the program runs in, with the folder of the test on the way.
            Row(Made(Call::Open, 4), ""),
            Row(Made(Call::SyncFolder, 4), ""),
            Row(Made(Call::NewNames, 0), ""),
            Row(Made(Call::MakeFile, 0), ""),
            Row(Made(Call::Write, 0), ""),
            Row(Made(Call::Early, 0), ""),
        ],
    ),
    // The next run's first calls: what an earlier one wrote is stable before it is read, and the names are.
    Case(
        "a store that is there",
        NO_PLAN,
        &[
            Row(Folder("store"), ""),
            Row(Folder("store/shard.0"), ""),
            Row(Put("store/shard.0/marks", b"\x01mark"), ""),
            Row(Put("store/shard.0/log.0", b"\x01log"), ""),
            Row(Len(MARKS, 5), ""),
            Row(Made(Call::MakeFolder, 0), ""),
            Row(Made(Call::Lock, 1), ""),
            Row(Made(Call::SyncFolder, 4), ""),
            Row(Made(Call::Open, 5), ""),
            Row(Made(Call::Sync, 1), ""),
            Row(Made(Call::Read, 1), ""),
            Row(Read(LOG, 0, b"\x01log"), ""),
            Row(Made(Call::Open, 6), ""),
            Row(Made(Call::Sync, 2), ""),
            Row(Made(Call::Read, 2), ""),
            Row(Made(Call::Unstable, 0), ""),
            Row(Made(Call::Early, 0), ""),
            Row(Made(Call::Write, 0), ""),
            Row(Made(Call::MakeFile, 0), ""),
        ],
    ),
    Case(
        "an append to a file that is there",
        NO_PLAN,
        &[
            Row(Write(LOG, 0, b"\0"), ""),
            Row(Made(Call::MakeFile, 1), ""),
            Row(Made(Call::NewNames, 1), ""),
            Row(Sync(LOG), ""),
            Row(Made(Call::NewNames, 0), ""),
            Row(Count, ""),
            Row(Write(LOG, 1, b"body\0"), ""),
            Row(Sync(LOG), ""),
            Row(Write(LOG, 0, b"\x01"), ""),
            Row(Sync(LOG), ""),
            Row(Made(Call::Open, 0), ""),
            Row(Made(Call::MakeFile, 0), ""),
            Row(Made(Call::Write, 2), ""),
            Row(Made(Call::Sync, 2), ""),
            Row(Made(Call::SyncFolder, 0), ""),
            Row(Made(Call::Close, 0), ""),
            Row(Made(Call::Lock, 0), ""),
        ],
    ),
    Case(
        "a name is stable with its file",
        NO_PLAN,
        &[
            Row(Len(LOG, 0), ""),
            Row(Count, ""),
            Row(Write(LOG, 0, b"x"), ""),
            Row(Write(KEYS, 0, b"x"), ""),
            Row(Made(Call::NewNames, 2), ""),
            Row(Sync(KEYS), ""),
            Row(Made(Call::SyncFolder, 1), ""),
            Row(Made(Call::NewNames, 0), ""),
            Row(Sync(LOG), ""),
            Row(Made(Call::SyncFolder, 1), ""),
            Row(Close, ""),
            Row(Made(Call::Close, 3), ""),
            Row(Run, ""),
        ],
    ),
];

#[test]
fn calls_are_counted(rt: HostRuntime) -> Result<(), AllocError> {
    follow(&rt, &rt, "counts_of_a_test", &COUNTS)
}
