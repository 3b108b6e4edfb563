//! What is told of a call that fails, and a call that a signal interrupts.
use crate::steps::Step::{Close, Cut, Dump, Folder, Holds, Len, Link, Put, Read, Sync, Write};
use crate::steps::{Case, Row, follow};
use crate::watched::{Call, Plan};
use gor_disk::FileId;
use std::alloc::AllocError;

const MARKS: FileId = FileId::Marks;

const LOG: FileId = FileId::Log(0);

/// Numbers of the system's errors.
const INTERRUPTED: i32 = 4;

const INPUT_OUTPUT: i32 = 5;

const NO_RIGHT: i32 = 13;

const MANY_FILES: i32 = 24;

const FULL: i32 = 28;

const READ_ONLY: i32 = 30;

const NO_LOCKS: i32 = 37;

const QUOTA: i32 = 122;

const STORE: Row = Row(Folder("store"), "");

const SHARD: Row = Row(Folder("store/shard.0"), "");

const MARK: Row = Row(Put("store/shard.0/marks", b"\x01mark"), "");

const WRITTEN: Row = Row(Write(LOG, 0, b"abc"), "");

/// The first call of a disk fails, and the disk is refused for good.
const OPENINGS: [Case; 16] = [
    Case(
        "the first look",
        Plan(Call::Look, 0, 1, INPUT_OUTPUT),
        &[Row(
            Len(MARKS, 0),
            "failures_of_a_test: look: input/output error",
        )],
    ),
    Case(
        "a look at the shard",
        Plan(Call::Look, 3, 1, NO_RIGHT),
        &[Row(Len(MARKS, 0), "store/shard.0: look: permission denied")],
    ),
    Case(
        "a store that may not be made",
        Plan(Call::MakeFolder, 0, 1, NO_RIGHT),
        &[Row(Len(MARKS, 0), "store: make: permission denied")],
    ),
    Case(
        "a shard that may not be made",
        Plan(Call::MakeFolder, 1, 1, FULL),
        &[Row(
            Len(MARKS, 0),
            "store/shard.0: make: no space left on device",
        )],
    ),
    Case(
        "a shard that may not be read",
        Plan(Call::Open, 0, 1, NO_RIGHT),
        &[Row(Len(MARKS, 0), "store/shard.0: open: permission denied")],
    ),
    Case(
        "a store that may be passed and not read",
        Plan(Call::Open, 1, 1, NO_RIGHT),
        &[Row(Len(MARKS, 0), "store: open: permission denied")],
    ),
    Case(
        "a working folder that may be passed and not read",
        Plan(Call::Open, 3, 1, NO_RIGHT),
        &[
            Row(Len(MARKS, 0), ".: open: permission denied"),
            Row(Dump, ""),
            Row(Len(MARKS, 0), ""),
        ],
    ),
    Case(
        "no lock",
        Plan(Call::Lock, 0, 1, NO_LOCKS),
        &[Row(Len(MARKS, 0), "store/shard.0: lock: no locks available")],
    ),
    Case(
        "names of the shard",
        Plan(Call::SyncFolder, 0, 1, INPUT_OUTPUT),
        &[Row(Len(MARKS, 0), "store/shard.0: sync: input/output error")],
    ),
    Case(
        "names of the store",
        Plan(Call::SyncFolder, 1, 1, INPUT_OUTPUT),
        &[Row(Len(MARKS, 0), "store: sync: input/output error")],
    ),
    Case(
        "names of the working folder",
        Plan(Call::SyncFolder, 3, 1, INPUT_OUTPUT),
        &[Row(Len(MARKS, 0), ".: sync: input/output error")],
    ),
    Case(
        "a list of the store",
        Plan(Call::List, 0, 1, INPUT_OUTPUT),
        &[Row(Len(MARKS, 0), "store: list: input/output error")],
    ),
    Case(
        "a list of the shard",
        Plan(Call::List, 1, 1, INPUT_OUTPUT),
        &[Row(Len(MARKS, 0), "store/shard.0: list: input/output error")],
    ),
    Case(
        "many files",
        Plan(Call::Open, 4, 1, MANY_FILES),
        &[
            STORE,
            SHARD,
            MARK,
            Row(
                Len(MARKS, 0),
                "store/shard.0/marks: open: too many open files",
            ),
        ],
    ),
    Case(
        "what is pending",
        Plan(Call::Sync, 0, 1, INPUT_OUTPUT),
        &[
            STORE,
            SHARD,
            MARK,
            Row(
                Len(MARKS, 0),
                "store/shard.0/marks: sync: input/output error",
            ),
        ],
    ),
    Case(
        "marks that cannot be read",
        Plan(Call::Read, 0, 1, INPUT_OUTPUT),
        &[
            STORE,
            SHARD,
            MARK,
            Row(
                Len(MARKS, 0),
                "store/shard.0/marks: read: input/output error",
            ),
        ],
    ),
];

#[test]
fn a_failed_opening_is_told(rt: HostRuntime) -> Result<(), AllocError> {
    follow(&rt, &rt, "failures_of_a_test", &OPENINGS)
}

/// A later call of a disk fails. After a sync that failed no other is believed.
const CALLS: [Case; 8] = [
    Case(
        "a file that may not be made",
        Plan(Call::MakeFile, 0, 1, READ_ONLY),
        &[Row(
            Write(LOG, 0, b"abc"),
            "store/shard.0/log.0: make: read-only file system",
        )],
    ),
    Case(
        "no space",
        Plan(Call::Write, 0, 1, FULL),
        &[Row(
            Write(LOG, 0, b"abc"),
            "store/shard.0/log.0: write: no space left on device",
        )],
    ),
    Case(
        "no quota",
        Plan(Call::Write, 1, 1, QUOTA),
        &[
            WRITTEN,
            Row(
                Write(LOG, 3, b"d"),
                "store/shard.0/log.0: write: disk quota exceeded",
            ),
            Row(Holds("store/shard.0/log.0", b"abc"), ""),
        ],
    ),
    Case(
        "a cut",
        Plan(Call::Cut, 0, 1, INPUT_OUTPUT),
        &[
            WRITTEN,
            Row(Cut(LOG, 1), "store/shard.0/log.0: cut: input/output error"),
        ],
    ),
    Case(
        "a read",
        Plan(Call::Read, 0, 1, INPUT_OUTPUT),
        &[
            WRITTEN,
            Row(
                Read(LOG, 0, b"abc"),
                "store/shard.0/log.0: read: input/output error",
            ),
        ],
    ),
    Case(
        "a close",
        Plan(Call::Close, 0, 1, FULL),
        &[
            WRITTEN,
            Row(Close, "store/shard.0/log.0: close: no space left on device"),
        ],
    ),
    Case(
        "a sync",
        Plan(Call::Sync, 0, 1, INPUT_OUTPUT),
        &[
            WRITTEN,
            Row(Sync(LOG), "store/shard.0/log.0: sync: input/output error"),
            Row(Sync(LOG), "store/shard.0/log.0: sync: input/output error"),
            Row(Write(LOG, 3, b"d"), ""),
            Row(Sync(LOG), "store/shard.0/log.0: sync: input/output error"),
        ],
    ),
    Case(
        "a sync of names",
        Plan(Call::SyncFolder, 4, 1, INPUT_OUTPUT),
        &[
            WRITTEN,
            Row(Sync(LOG), "store/shard.0: sync: input/output error"),
            Row(Sync(LOG), "store/shard.0: sync: input/output error"),
        ],
    ),
];

#[test]
fn a_failed_call_is_told(rt: HostRuntime) -> Result<(), AllocError> {
    follow(&rt, &rt, "failed_calls_of_a_test", &CALLS)
}

/// Calls that signals interrupt are made again. Where std makes them again itself, no such call is among these.
const INTERRUPTED_CALLS: [Case; 8] = [
    Case(
        "looks at a store",
        Plan(Call::Look, 0, 3, INTERRUPTED),
        &[
            STORE,
            SHARD,
            MARK,
            Row(Folder("store/kept"), ""),
            Row(Put("store/kept/log", b"abc"), ""),
            Row(Link("../kept/log", "store/shard.0/log.0"), ""),
            Row(Len(MARKS, 5), ""),
            Row(Read(LOG, 0, b"abc"), ""),
            Row(Write(LOG, 3, b"d"), ""),
            Row(Sync(LOG), ""),
            Row(Write(FileId::Keys(0), 0, b"k"), ""),
            Row(Sync(FileId::Keys(0)), ""),
            Row(Holds("store/kept/log", b"abcd"), ""),
            Row(Close, ""),
        ],
    ),
    Case(
        "looks at files",
        Plan(Call::Look, 7, 9, INTERRUPTED),
        &[
            STORE,
            SHARD,
            MARK,
            Row(Folder("store/kept"), ""),
            Row(Put("store/kept/log", b"abc"), ""),
            Row(Link("../kept/log", "store/shard.0/log.0"), ""),
            Row(Len(MARKS, 5), ""),
            Row(Read(LOG, 0, b"abc"), ""),
            Row(Write(LOG, 3, b"d"), ""),
            Row(Sync(LOG), ""),
            Row(Write(FileId::Keys(0), 0, b"k"), ""),
            Row(Sync(FileId::Keys(0)), ""),
            Row(Holds("store/kept/log", b"abcd"), ""),
            Row(Close, ""),
        ],
    ),
    Case(
        "paths",
        Plan(Call::RealPath, 0, 5, INTERRUPTED),
        &[
            STORE,
            SHARD,
            MARK,
            Row(Folder("store/kept"), ""),
            Row(Put("store/kept/log", b"abc"), ""),
            Row(Link("../kept/log", "store/shard.0/log.0"), ""),
            Row(Len(MARKS, 5), ""),
            Row(Read(LOG, 0, b"abc"), ""),
            Row(Write(LOG, 3, b"d"), ""),
            Row(Sync(LOG), ""),
            Row(Write(FileId::Keys(0), 0, b"k"), ""),
            Row(Sync(FileId::Keys(0)), ""),
            Row(Holds("store/kept/log", b"abcd"), ""),
            Row(Close, ""),
        ],
    ),
    Case(
        "reads",
        Plan(Call::Read, 0, 5, INTERRUPTED),
        &[
            STORE,
            SHARD,
            MARK,
            Row(Folder("store/kept"), ""),
            Row(Put("store/kept/log", b"abc"), ""),
            Row(Link("../kept/log", "store/shard.0/log.0"), ""),
            Row(Len(MARKS, 5), ""),
            Row(Read(LOG, 0, b"abc"), ""),
            Row(Write(LOG, 3, b"d"), ""),
            Row(Sync(LOG), ""),
            Row(Write(FileId::Keys(0), 0, b"k"), ""),
            Row(Sync(FileId::Keys(0)), ""),
            Row(Holds("store/kept/log", b"abcd"), ""),
            Row(Close, ""),
        ],
    ),
    Case(
        "writes",
        Plan(Call::Write, 0, 5, INTERRUPTED),
        &[
            STORE,
            SHARD,
            MARK,
            Row(Folder("store/kept"), ""),
            Row(Put("store/kept/log", b"abc"), ""),
            Row(Link("../kept/log", "store/shard.0/log.0"), ""),
            Row(Len(MARKS, 5), ""),
            Row(Read(LOG, 0, b"abc"), ""),
            Row(Write(LOG, 3, b"d"), ""),
            Row(Sync(LOG), ""),
            Row(Write(FileId::Keys(0), 0, b"k"), ""),
            Row(Sync(FileId::Keys(0)), ""),
            Row(Holds("store/kept/log", b"abcd"), ""),
            Row(Close, ""),
        ],
    ),
    Case(
        "folders",
        Plan(Call::MakeFolder, 0, 5, INTERRUPTED),
        &[
            Row(Len(MARKS, 0), ""),
            Row(Write(MARKS, 0, b"m"), ""),
            Row(Sync(MARKS), ""),
            Row(Read(MARKS, 0, b"m"), ""),
        ],
    ),
    Case(
        "looks at a new store",
        Plan(Call::Look, 0, 20, INTERRUPTED),
        &[
            Row(Len(MARKS, 0), ""),
            Row(Write(MARKS, 0, b"m"), ""),
            Row(Sync(MARKS), ""),
            Row(Read(MARKS, 0, b"m"), ""),
        ],
    ),
    Case(
        "lists",
        Plan(Call::List, 0, 5, INTERRUPTED),
        &[
            Row(Len(MARKS, 0), ""),
            Row(Write(MARKS, 0, b"m"), ""),
            Row(Sync(MARKS), ""),
            Row(Read(MARKS, 0, b"m"), ""),
        ],
    ),
];

#[test]
fn an_interrupted_call_is_made_again(rt: HostRuntime) -> Result<(), AllocError> {
    follow(&rt, &rt, "interrupted_of_a_test", &INTERRUPTED_CALLS)
}
