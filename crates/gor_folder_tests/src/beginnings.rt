//! What a disk finds at its first call.
use crate::steps::Step::{
    self, Close, Dump, Folder, Holds, Lacks, Len, Link, Put, Read, Run, Sync, Write,
};
use crate::steps::{Case, Row, follow};
use crate::watched::NO_PLAN;
use gor_disk::FileId;
use std::alloc::AllocError;

const MARKS: FileId = FileId::Marks;

const KEYS: FileId = FileId::Keys(0);

const LOG: FileId = FileId::Log(0);

/// An open gate and what may stand behind it.
const MARK: &[u8] = b"\x01mark";

const FULL: &[u8] = b"\x01full";

const SHARD: Row = Row(Folder("store/shard.0"), "");

const STORE: Row = Row(Folder("store"), "");

/// A store in which the marks are lost, cut to nothing, cut to a byte or turned in their first byte, and the other files are not.
const LOST: [Case; 8] = [
    Case(
        "no marks, a full log",
        NO_PLAN,
        &[
            STORE,
            SHARD,
            Row(Put("store/shard.0/log.0", FULL), ""),
            Row(
                Len(MARKS, 0),
                "store/shard.0/log.0: holds bytes, and marks holds no mark",
            ),
            Row(Run, ""),
            Row(
                Write(LOG, 0, b"new"),
                "store/shard.0/log.0: holds bytes, and marks holds no mark",
            ),
            Row(Dump, ""),
            Row(
                Len(LOG, 0),
                "store/shard.0/log.0: holds bytes, and marks holds no mark",
            ),
            Row(Holds("store/shard.0/log.0", FULL), ""),
            Row(Run, ""),
            Row(Lacks("store/shard.0/marks"), ""),
            Row(Lacks("store/shard.0/keys.0"), ""),
        ],
    ),
    Case(
        "no marks, a full key list",
        NO_PLAN,
        &[
            STORE,
            SHARD,
            Row(Put("store/shard.0/log.0", b"\0"), ""),
            Row(Put("store/shard.0/keys.0", FULL), ""),
            Row(
                Len(MARKS, 0),
                "store/shard.0/keys.0: holds bytes, and marks holds no mark",
            ),
            Row(Dump, ""),
            Row(
                Len(MARKS, 0),
                "store/shard.0/keys.0: holds bytes, and marks holds no mark",
            ),
            Row(Holds("store/shard.0/keys.0", FULL), ""),
        ],
    ),
    Case(
        "marks of no byte",
        NO_PLAN,
        &[
            STORE,
            SHARD,
            Row(Put("store/shard.0/marks", b""), ""),
            Row(Put("store/shard.0/log.0", FULL), ""),
            Row(
                Len(MARKS, 0),
                "store/shard.0/log.0: holds bytes, and marks holds no mark",
            ),
            Row(Holds("store/shard.0/marks", b""), ""),
        ],
    ),
    Case(
        "marks of one byte",
        NO_PLAN,
        &[
            STORE,
            SHARD,
            Row(Put("store/shard.0/marks", b"\x01"), ""),
            Row(Put("store/shard.0/log.0", FULL), ""),
            Row(
                Len(MARKS, 0),
                "store/shard.0/log.0: holds bytes, and marks holds no mark",
            ),
        ],
    ),
    Case(
        "a turned byte",
        NO_PLAN,
        &[
            STORE,
            SHARD,
            Row(Put("store/shard.0/marks", b"\x81mark"), ""),
            Row(Put("store/shard.0/keys.0", FULL), ""),
            Row(Put("store/shard.0/log.0", FULL), ""),
            Row(
                Len(MARKS, 0),
                "store/shard.0/keys.0: holds bytes, and marks holds no mark",
            ),
            Row(Run, ""),
            Row(
                Sync(MARKS),
                "store/shard.0/keys.0: holds bytes, and marks holds no mark",
            ),
            Row(Holds("store/shard.0/marks", b"\x81mark"), ""),
            Row(Holds("store/shard.0/log.0", FULL), ""),
        ],
    ),
    Case(
        "a later log",
        NO_PLAN,
        &[
            STORE,
            SHARD,
            Row(Put("store/shard.0/log.7", FULL), ""),
            Row(
                Len(MARKS, 0),
                "store/shard.0: holds other files, and no mark",
            ),
            Row(Dump, ""),
            Row(
                Len(MARKS, 0),
                "store/shard.0: holds other files, and no mark",
            ),
        ],
    ),
    // A run that was stopped before its first mark leaves this, and the next one begins.
    Case(
        "before the first mark",
        NO_PLAN,
        &[
            STORE,
            SHARD,
            Row(Put("store/shard.0/marks", b"\0mark"), ""),
            Row(Put("store/shard.0/keys.0", b"\0"), ""),
            Row(Put("store/shard.0/log.0", b"\0"), ""),
            Row(Len(MARKS, 5), ""),
            Row(Write(LOG, 1, b"x"), ""),
            Row(Dump, ""),
            Row(
                Len(MARKS, 5),
                "store/shard.0/log.0: holds bytes, and marks holds no mark",
            ),
        ],
    ),
    Case(
        "a mark",
        NO_PLAN,
        &[
            STORE,
            SHARD,
            Row(Put("store/shard.0/marks", MARK), ""),
            Row(Put("store/shard.0/log.0", FULL), ""),
            Row(Put("store/shard.0/notes", FULL), ""),
            Row(Len(KEYS, 0), ""),
            Row(Read(LOG, 1, b"full"), ""),
            Row(Read(MARKS, 0, MARK), ""),
            Row(Dump, ""),
            Row(Read(LOG, 1, b"full"), ""),
        ],
    ),
];

#[test]
fn a_store_without_its_marks_is_refused(rt: HostRuntime) -> Result<(), AllocError> {
    follow(&rt, &rt, "lost_of_a_test", &LOST)
}

/// What is no regular file, and folders that are none.
const IRREGULAR: [Case; 13] = [
    Case(
        "marks is a folder",
        NO_PLAN,
        &[
            STORE,
            SHARD,
            Row(Folder("store/shard.0/marks"), ""),
            Row(Len(MARKS, 0), "store/shard.0/marks: is no regular file"),
            Row(Dump, ""),
            Row(Len(MARKS, 0), "store/shard.0/marks: is no regular file"),
        ],
    ),
    Case(
        "the log is a folder",
        NO_PLAN,
        &[
            STORE,
            SHARD,
            Row(Put("store/shard.0/marks", MARK), ""),
            Row(Folder("store/shard.0/log.0"), ""),
            Row(Len(MARKS, 5), ""),
            Row(Len(LOG, 0), "store/shard.0/log.0: is no regular file"),
        ],
    ),
    Case(
        "marks is a device",
        NO_PLAN,
        &[
            STORE,
            SHARD,
            Row(Link("/dev/null", "store/shard.0/marks"), ""),
            Row(Len(MARKS, 0), "store/shard.0/marks: is no regular file"),
            Row(Dump, ""),
            Row(Len(MARKS, 0), "store/shard.0/marks: is no regular file"),
        ],
    ),
    Case(
        "a link to nothing",
        NO_PLAN,
        &[
            STORE,
            SHARD,
            Row(Link("nothing", "store/shard.0/marks"), ""),
            Row(Len(MARKS, 0), "store/shard.0/marks: is no regular file"),
            Row(Dump, ""),
            Row(Len(MARKS, 0), "store/shard.0/marks: is no regular file"),
            Row(Lacks("store/shard.0/nothing"), ""),
        ],
    ),
    Case(
        "a link out of the store",
        NO_PLAN,
        &[
            STORE,
            SHARD,
            Row(Put("marks", MARK), ""),
            Row(Link("../../marks", "store/shard.0/marks"), ""),
            Row(
                Len(MARKS, 0),
                "store/shard.0/marks: is a link out of the store",
            ),
            Row(Dump, ""),
            Row(
                Len(MARKS, 0),
                "store/shard.0/marks: is a link out of the store",
            ),
            Row(Holds("marks", MARK), ""),
        ],
    ),
    Case(
        "a link beside the store",
        NO_PLAN,
        &[
            STORE,
            SHARD,
            Row(Folder("store2"), ""),
            Row(Put("store2/marks", MARK), ""),
            Row(Link("../../store2/marks", "store/shard.0/marks"), ""),
            Row(
                Len(MARKS, 0),
                "store/shard.0/marks: is a link out of the store",
            ),
        ],
    ),
    Case(
        "a link within the store",
        NO_PLAN,
        &[
            STORE,
            SHARD,
            Row(Folder("store/kept"), ""),
            Row(Put("store/kept/marks", MARK), ""),
            Row(Link("../kept/marks", "store/shard.0/marks"), ""),
            Row(Len(MARKS, 5), ""),
            Row(Write(MARKS, 5, b"+"), ""),
            Row(Sync(MARKS), ""),
            Row(Holds("store/kept/marks", b"\x01mark+"), ""),
            Row(Dump, ""),
            Row(Read(MARKS, 0, b"\x01mark+"), ""),
        ],
    ),
    Case(
        "the shard is a file",
        NO_PLAN,
        &[
            STORE,
            Row(Put("store/shard.0", b""), ""),
            Row(Len(MARKS, 0), "store/shard.0: is no folder"),
            Row(Dump, ""),
            Row(Len(MARKS, 0), "store/shard.0: is no folder"),
        ],
    ),
    Case(
        "the shard is a link",
        NO_PLAN,
        &[
            STORE,
            Row(Folder("store/shard.1"), ""),
            Row(Link("shard.1", "store/shard.0"), ""),
            Row(Len(MARKS, 0), "store/shard.0: is no folder"),
            Row(Dump, ""),
            Row(Len(MARKS, 0), "store/shard.0: is no folder"),
        ],
    ),
    Case(
        "the store is a file",
        NO_PLAN,
        &[
            Row(Put("store", b""), ""),
            Row(Len(MARKS, 0), "store: is no folder"),
            Row(Dump, ""),
            Row(Len(MARKS, 0), "store: is no folder"),
        ],
    ),
    Case(
        "the store is a link to nothing",
        NO_PLAN,
        &[
            Row(Link("nowhere", "store"), ""),
            Row(Len(MARKS, 0), "store: is no folder"),
            Row(Dump, ""),
            Row(Len(MARKS, 0), "store: is no folder"),
            Row(Lacks("nowhere"), ""),
        ],
    ),
    Case(
        "the store is a link",
        NO_PLAN,
        &[
            Row(Folder("other"), ""),
            Row(Link("other", "store"), ""),
            Row(Len(MARKS, 0), "store: is no folder"),
            Row(Dump, ""),
            Row(Len(MARKS, 0), "store: is no folder"),
            Row(Lacks("other/shard.0"), ""),
        ],
    ),
    Case(
        "the store is another folder",
        NO_PLAN,
        &[
            STORE,
            Row(Put("store/apples", b"3"), ""),
            Row(Len(MARKS, 0), "store: holds other files, and no shard"),
            Row(Dump, ""),
            Row(Len(MARKS, 0), "store: holds other files, and no shard"),
            Row(Lacks("store/shard.0"), ""),
            // It is a store once it has a shard.
            Row(Run, ""),
            Row(Folder("store/shard.1"), ""),
            Row(Len(MARKS, 0), ""),
            Row(Close, ""),
            Row(Dump, ""),
            Row(Len(MARKS, 0), ""),
        ],
    ),
];

#[test]
fn what_is_no_store_is_refused(rt: HostRuntime) -> Result<(), AllocError> {
    follow(&rt, &rt, "irregular_of_a_test", &IRREGULAR)
}

/// An absent folder: a run makes it, and a dump does not.
const ABSENT: [Case; 2] = [
    Case(
        "a dump",
        NO_PLAN,
        &[
            Row(Dump, ""),
            Row(Len(MARKS, 0), ""),
            Row(Read(LOG, 0, b""), ""),
            Row(Lacks("store"), ""),
            STORE,
            SHARD,
            Row(Put("store/shard.0/marks", MARK), ""),
            // It stays what it was found to be.
            Row(Len(MARKS, 0), ""),
            Row(Dump, ""),
            Row(Len(MARKS, 5), ""),
            Row(
                Write(MARKS, 0, b"x"),
                "store/shard.0/marks: is only read by a dump",
            ),
            Row(Dump, ""),
            Row(
                Step::Cut(MARKS, 0),
                "store/shard.0/marks: is only read by a dump",
            ),
            Row(Holds("store/shard.0/marks", MARK), ""),
            Row(Dump, ""),
            Row(
                Read(LOG, 0, b"x"),
                "store/shard.0/log.0: read: unexpected end of file",
            ),
        ],
    ),
    Case(
        "a run",
        NO_PLAN,
        &[
            Row(Len(MARKS, 0), ""),
            Row(Len(KEYS, 0), ""),
            Row(Read(LOG, 0, b""), ""),
            Row(Step::Cut(LOG, 0), ""),
            Row(Sync(LOG), ""),
            Row(Lacks("store/shard.0/marks"), ""),
            Row(Lacks("store/shard.0/log.0"), ""),
            Row(Write(LOG, 0, b"x"), ""),
            Row(Holds("store/shard.0/log.0", b"x"), ""),
        ],
    ),
];

#[test]
fn an_absent_folder_is_made_by_a_run_alone(rt: HostRuntime) -> Result<(), AllocError> {
    follow(&rt, &rt, "absent_of_a_test", &ABSENT)
}
