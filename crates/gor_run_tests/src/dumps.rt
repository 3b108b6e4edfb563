//! Dumps of stores that were written byte by byte.
use crate::machine::Fails::{Disk, Nothing, Write};
use crate::steps::Ends::{self, Refused, With};
use crate::steps::Step::{self, Change, Cut, Dump, Lay};
use crate::steps::Text::Is;
use crate::steps::{Case, OK, first_other, follow};
use gor_disk::FileId;
use gor_run::Status;
use std::alloc::AllocError;

// The files of a store with one point.
pub const MARKS: [u8; 20] = [1, 0, 0, 0, 0, 0, 0, 0, 10, 1, 1, 0, 0, 0, 1, 0, 0, 0, 0, 0];

pub const KEYS: [u8; 30] = [
    1, 0, 0, 0, 0, 0, 0, 0, 20, 1, 1, 0, 0, 0, 0, 0, 0, 0, 1, 0, 0, 0, 0, 0, 0, 0, 0, 1, 97, 0,
];

pub const LOG: [u8; 48] = [
    1, 0, 0, 0, 0, 0, 0, 0, 38, 1, 0, 0, 0, 0, 0, 0, 0, 1, 0, 0, 0, 0, 0, 0, 0, 1, 1, 0, 0, 0, 0,
    0, 0, 0, 1, 0, 0, 0, 10, 0, 0, 0, 0, 0, 0, 0, 1, 0,
];

// Two series, of which the second in slots is the first by its key, and the floor of window 0.
const TWO_KEYS: [u8; 49] = [
    1, 0, 0, 0, 0, 0, 0, 0, 39, 1, 1, 0, 0, 0, 0, 0, 0, 0, 1, 0, 0, 0, 0, 0, 0, 0, 0, 1, 98, 1, 0,
    0, 0, 0, 0, 0, 0, 2, 0, 0, 0, 1, 0, 0, 0, 0, 1, 65, 0,
];

// Their first points, and the floor.
const TWO_LOG: [u8; 74] = [
    1, 0, 0, 0, 0, 0, 0, 0, 64, 1, 0, 0, 0, 0, 0, 0, 0, 1, 0, 0, 0, 0, 0, 0, 0, 3, 1, 0, 0, 0, 0,
    0, 0, 0, 1, 0, 0, 0, 10, 0, 0, 0, 0, 0, 0, 0, 1, 1, 0, 0, 0, 0, 0, 0, 0, 2, 0, 0, 0, 11, 0, 0,
    0, 0, 0, 0, 0, 2, 2, 0, 0, 0, 0, 0,
];

// Of two slots the first is used again: `a` and `b` begin, `a` is deleted, and `c` begins in its place.
const AGAIN_KEYS: [u8; 81] = [
    1, 0, 0, 0, 0, 0, 0, 0, 71, 1, 1, 0, 0, 0, 0, 0, 0, 0, 1, 0, 0, 0, 0, 0, 0, 0, 0, 1, 97, 1, 0,
    0, 0, 0, 0, 0, 0, 2, 0, 0, 0, 1, 0, 0, 0, 0, 1, 98, 2, 0, 0, 0, 0, 0, 0, 0, 3, 0, 0, 0, 0, 1,
    0, 0, 0, 0, 0, 0, 0, 4, 0, 0, 0, 0, 0, 0, 0, 0, 1, 99, 0,
];

// Their three puts. The delete has a number and no record.
const AGAIN_LOG: [u8; 90] = [
    1, 0, 0, 0, 0, 0, 0, 0, 80, 1, 0, 0, 0, 0, 0, 0, 0, 1, 0, 0, 0, 0, 0, 0, 0, 4, 1, 0, 0, 0, 0,
    0, 0, 0, 1, 0, 0, 0, 10, 0, 0, 0, 0, 0, 0, 0, 1, 1, 0, 0, 0, 0, 0, 0, 0, 2, 0, 0, 0, 10, 0, 0,
    0, 0, 0, 0, 0, 2, 1, 0, 0, 0, 0, 0, 0, 0, 4, 0, 0, 0, 10, 0, 0, 0, 0, 0, 0, 0, 3, 0,
];

/// What one point of the series `a` is dumped as.
pub const TEXT: &[u8] = b"0 a floor 0 points 1 10:0000000000000001\n";

/// The store of one point is laid on an empty disk.
pub const ONE: Step = Lay(&MARKS, &KEYS, &LOG, Nothing);

const GIVEN: Step = Dump("dump", Nothing, OK, Is(TEXT));

const EMPTY: Step = Dump("dump", Nothing, OK, Is(b""));

const DISKS: [Case; 4] = [
    ("dump", &[ONE, GIVEN]),
    (
        "dump --shards 1",
        &[ONE, Dump("dump --shards 1", Nothing, OK, Is(TEXT))],
    ),
    (
        "dump --shards=1",
        &[ONE, Dump("dump --shards=1", Nothing, OK, Is(TEXT))],
    ),
    ("an empty disk", &[EMPTY]),
];

#[test]
fn disks_are_dumped(rt: HostRuntime) -> Result<(), AllocError> {
    follow(&rt, &DISKS)
}

const ORDERS: [Case; 2] = [
    (
        "two series and a floor",
        &[
            Lay(&MARKS, &TWO_KEYS, &TWO_LOG, Nothing),
            Dump(
                "dump",
                Nothing,
                OK,
                Is(
                    b"0 floor 7200\n0 A floor 0 points 1 11:0000000000000002\n0 b floor 0 points 1 10:0000000000000001\n",
                ),
            ),
        ],
    ),
    (
        "a slot used again",
        &[
            Lay(&MARKS, &AGAIN_KEYS, &AGAIN_LOG, Nothing),
            Dump(
                "dump",
                Nothing,
                OK,
                Is(
                    b"0 b floor 0 points 1 10:0000000000000002\n0 c floor 0 points 1 10:0000000000000003\n",
                ),
            ),
        ],
    ),
];

#[test]
fn series_come_in_the_order_of_their_keys(rt: HostRuntime) -> Result<(), AllocError> {
    follow(&rt, &ORDERS)
}

const DAMAGES: [Case; 7] = [
    (
        "a version of the log",
        &[
            ONE,
            Change(FileId::Log(0), 9, 2),
            Dump(
                "dump",
                Nothing,
                Refused("gorilla: shard 0: damage in log.0 at 9: version"),
                Is(b""),
            ),
        ],
    ),
    (
        "a kind of a record",
        &[
            ONE,
            Change(FileId::Log(0), 26, 7),
            Dump(
                "dump",
                Nothing,
                Refused("gorilla: shard 0: damage in log.0 at 26: kind"),
                Is(b""),
            ),
        ],
    ),
    (
        "a first number",
        &[
            ONE,
            Change(FileId::Log(0), 17, 0),
            Dump(
                "dump",
                Nothing,
                Refused("gorilla: shard 0: damage in log.0 at 10: value"),
                Is(b""),
            ),
        ],
    ),
    (
        "a version of the marks",
        &[
            ONE,
            Change(FileId::Marks, 9, 2),
            Dump(
                "dump",
                Nothing,
                Refused("gorilla: shard 0: damage in marks at 9: version"),
                Is(b""),
            ),
        ],
    ),
    (
        "another home",
        &[
            ONE,
            Change(FileId::Marks, 14, 4),
            Dump(
                "dump",
                Nothing,
                Refused("gorilla: shard 0: home is 0 of 4, asked 0 of 1"),
                Is(b""),
            ),
        ],
    ),
    (
        "a kind of a key record",
        &[
            ONE,
            Change(FileId::Keys(0), 10, 9),
            Dump(
                "dump",
                Nothing,
                Refused("gorilla: shard 0: damage in keys.0 at 10: kind"),
                Is(b""),
            ),
        ],
    ),
    (
        "a cut log",
        &[
            ONE,
            Cut(FileId::Log(0), 30),
            Dump(
                "dump",
                Nothing,
                Refused("gorilla: shard 0: damage in log.0 at 0: cut"),
                Is(b""),
            ),
        ],
    ),
];

#[test]
fn damage_is_named(rt: HostRuntime) -> Result<(), AllocError> {
    follow(&rt, &DAMAGES)
}

const TORN: [Case; 2] = [
    (
        "without its last byte, which is the gate of the next batch",
        &[ONE, Cut(FileId::Log(0), 47), GIVEN],
    ),
    (
        "with the gate of its only batch shut",
        &[ONE, Change(FileId::Log(0), 0, 0), EMPTY],
    ),
];

#[test]
fn a_torn_end_of_a_log_is_no_damage(rt: HostRuntime) -> Result<(), AllocError> {
    follow(&rt, &TORN)
}

const DEVICE_FAULT: Ends = With(Status::DeviceFault { shard: 0 });

const WRITE_FAULT: Ends = With(Status::WriteFault);

const NO_DEVICE: Step = Dump("dump", Nothing, DEVICE_FAULT, Is(b""));

// Three files that are not empty have each at least their length and their bytes read, behind the three writes that lay them.
const FAULTS: [Case; 9] = [
    ("call 3", &[Lay(&MARKS, &KEYS, &LOG, Disk(3)), NO_DEVICE]),
    ("call 4", &[Lay(&MARKS, &KEYS, &LOG, Disk(4)), NO_DEVICE]),
    ("call 5", &[Lay(&MARKS, &KEYS, &LOG, Disk(5)), NO_DEVICE]),
    ("call 6", &[Lay(&MARKS, &KEYS, &LOG, Disk(6)), NO_DEVICE]),
    ("call 7", &[Lay(&MARKS, &KEYS, &LOG, Disk(7)), NO_DEVICE]),
    ("call 8", &[Lay(&MARKS, &KEYS, &LOG, Disk(8)), NO_DEVICE]),
    (
        "write 0",
        &[ONE, Dump("dump", Write(0), WRITE_FAULT, Is(b""))],
    ),
    (
        "write 2",
        &[ONE, Dump("dump", Write(2), WRITE_FAULT, Is(b"0 a floor "))],
    ),
    (
        "write 8",
        &[
            ONE,
            Dump(
                "dump",
                Write(8),
                WRITE_FAULT,
                Is(b"0 a floor 0 points 1 10:0000000000000001"),
            ),
        ],
    ),
];

#[test]
fn faults_of_a_dump_have_their_status(rt: HostRuntime) -> Result<(), AllocError> {
    follow(&rt, &FAULTS)
}

const NO_DUMP: [&str; 12] = [
    "",
    "run",
    "dump dump",
    "dump --help",
    "dump --",
    "dump --shards",
    "dump --shards 0",
    "dump --shards 2",
    "dump --shards 01",
    "dump --shards 1 --shards 1",
    "dump --slots 1",
    "dump --shards 1 --slots 1",
];

#[test]
fn words_of_no_dump_are_refused(rt: HostRuntime) -> Result<(), AllocError> {
    for words in &NO_DUMP {
        let dump = Dump(words, Nothing, With(Status::Words), Is(b""));
        let other = first_other(&rt, &[ONE, dump])?;
        assert!(rt; other.is_none(), "{words}: step {other:?}");
    }
    Ok(())
}
