//! What another does to the folder while a disk is in use.
use crate::steps::Step::{
    self, Close, Cut, Folder, Holds, Lacks, Len, Move, Put, Read, Remove, Sync, Write,
};
use crate::steps::{Case, Row, follow};
use crate::watched::NO_PLAN;
use gor_disk::FileId;
use std::alloc::AllocError;

const MARKS: FileId = FileId::Marks;

const KEYS: FileId = FileId::Keys(0);

const LOG: FileId = FileId::Log(0);

/// A log is written.
const WRITTEN: Row = Row(Write(LOG, 0, b"abc"), "");

/// The log is stable.
const STABLE: Row = Row(Sync(LOG), "");

const CHANGES: [Case; 8] = [
    Case(
        "a file is removed",
        NO_PLAN,
        &[
            WRITTEN,
            STABLE,
            Row(Remove("store/shard.0/log.0"), ""),
            Row(Write(LOG, 3, b"d"), ""),
            Row(
                Sync(LOG),
                "store/shard.0/log.0: was moved, removed or replaced",
            ),
            Row(Lacks("store/shard.0/log.0"), ""),
            Row(
                Sync(LOG),
                "store/shard.0/log.0: was moved, removed or replaced",
            ),
        ],
    ),
    Case(
        "a file is replaced",
        NO_PLAN,
        &[
            WRITTEN,
            STABLE,
            Row(Move("store/shard.0/log.0", "store/shard.0/old"), ""),
            Row(Put("store/shard.0/log.0", b"abc"), ""),
            Row(Write(LOG, 3, b"d"), ""),
            Row(
                Sync(LOG),
                "store/shard.0/log.0: was moved, removed or replaced",
            ),
            Row(Holds("store/shard.0/log.0", b"abc"), ""),
        ],
    ),
    Case(
        "the shard is moved",
        NO_PLAN,
        &[
            WRITTEN,
            STABLE,
            Row(Move("store/shard.0", "store/gone"), ""),
            Row(Write(LOG, 3, b"d"), ""),
            Row(
                Sync(LOG),
                "store/shard.0/log.0: was moved, removed or replaced",
            ),
            Row(Lacks("store/shard.0"), ""),
        ],
    ),
    Case(
        "the store is moved",
        NO_PLAN,
        &[
            WRITTEN,
            STABLE,
            Row(Move("store", "gone"), ""),
            Row(Write(LOG, 3, b"d"), ""),
            Row(
                Sync(LOG),
                "store/shard.0/log.0: was moved, removed or replaced",
            ),
            Row(Lacks("store"), ""),
        ],
    ),
    Case(
        "the shard is moved before a file is used",
        NO_PLAN,
        &[
            WRITTEN,
            STABLE,
            Row(Move("store/shard.0", "store/gone"), ""),
            Row(
                Len(FileId::Block(3), 0),
                "store/shard.0: was moved, removed or replaced",
            ),
        ],
    ),
    Case(
        "the shard is replaced before a file is made",
        NO_PLAN,
        &[
            WRITTEN,
            STABLE,
            Row(Len(FileId::Log(1), 0), ""),
            Row(Move("store/shard.0", "store/gone"), ""),
            Row(Folder("store/shard.0"), ""),
            Row(Write(FileId::Log(1), 0, b"d"), ""),
            Row(
                Sync(FileId::Log(1)),
                "store/shard.0: was moved, removed or replaced",
            ),
        ],
    ),
    Case(
        "a file appears",
        NO_PLAN,
        &[
            Row(Len(KEYS, 0), ""),
            Row(Put("store/shard.0/keys.0", b"x"), ""),
            Row(Len(KEYS, 0), ""),
            Row(
                Write(KEYS, 0, b"y"),
                "store/shard.0/keys.0: make: file exists",
            ),
            Row(Holds("store/shard.0/keys.0", b"x"), ""),
        ],
    ),
    Case(
        "a file is cut",
        NO_PLAN,
        &[
            WRITTEN,
            STABLE,
            Row(Put("store/shard.0/log.0", b"a"), ""),
            Row(
                Write(LOG, 3, b"d"),
                "store/shard.0/log.0: is shorter than it was",
            ),
            Row(Holds("store/shard.0/log.0", b"a"), ""),
        ],
    ),
];

#[test]
fn a_change_by_another_is_a_fault(rt: HostRuntime) -> Result<(), AllocError> {
    follow(&rt, &rt, "changes_of_a_test", &CHANGES)
}

/// Places that lie in no file.
const PLACES: [Case; 5] = [
    Case(
        "a write behind the end",
        NO_PLAN,
        &[
            Row(
                Write(LOG, 1, b"x"),
                "store/shard.0/log.0: is shorter than it was",
            ),
            Row(Lacks("store/shard.0/log.0"), ""),
        ],
    ),
    Case(
        "a write past the greatest length",
        NO_PLAN,
        &[
            WRITTEN,
            Row(
                Write(LOG, 9_223_372_036_854_775_807, b"z"),
                "store/shard.0/log.0: is longer than a file may be",
            ),
            Row(Len(LOG, 3), ""),
        ],
    ),
    Case(
        "a read past the end",
        NO_PLAN,
        &[
            WRITTEN,
            Row(
                Read(LOG, 2, b"cd"),
                "store/shard.0/log.0: read: failed to fill whole buffer",
            ),
            Row(Read(LOG, 2, b"c"), ""),
        ],
    ),
    Case(
        "a cut past the end",
        NO_PLAN,
        &[
            WRITTEN,
            Row(Cut(LOG, 4), ""),
            Row(Len(LOG, 3), ""),
            Row(Cut(LOG, 2), ""),
            Row(Len(LOG, 2), ""),
            Row(Holds("store/shard.0/log.0", b"ab"), ""),
        ],
    ),
    Case(
        "after the end",
        NO_PLAN,
        &[
            WRITTEN,
            Row(Close, ""),
            Row(Len(LOG, 3), "store/shard.0: failed before"),
            Row(Step::Run, ""),
            Row(
                Len(MARKS, 0),
                "store/shard.0/log.0: holds bytes, and marks holds no mark",
            ),
        ],
    ),
];

#[test]
fn places_that_lie_in_no_file_are_faults(rt: HostRuntime) -> Result<(), AllocError> {
    follow(&rt, &rt, "places_of_a_test", &PLACES)
}
