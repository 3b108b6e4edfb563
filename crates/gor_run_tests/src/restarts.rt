//! Runs one after another on a disk, and runs on a disk that fails or is refused.
use crate::dumps::ONE;
use crate::machine::Fails::{Disk, Nothing};
use crate::machine::Input::{self, Bytes};
use crate::steps::Ends::{self, With};
use crate::steps::Step::{Change, Run, Settle};
use crate::steps::Text::Is;
use crate::steps::{Case, OK, follow};
use gor_disk::FileId;
use gor_image::{DamageKind, ImageFault};
use gor_run::Status;
use std::alloc::AllocError;

const WORDS: &str = "run --shards 1 --slots 4";

const THREE_RUNS: [Case; 1] = [(
    "three runs",
    &[
        Run(
            WORDS,
            Bytes(
                b"0 put a 10 0000000000000001\n0 flush 0\n0 flush 0\n0 flush 1\n0 put a 20 0000000000000002\n",
            ),
            Nothing,
            OK,
            Is(
                b"0 0:0 stored\n0 0:1 take 1\n0 0:2 done 1\n0 0:3 take 0\n0 0:4 done 1\n0 - shard\n0 0:5 stored\n",
            ),
        ),
        // What was not flushed on demand was flushed at the end.
        Run(
            WORDS,
            Bytes(
                b"0 get A 0 99\n0 put a 20 0000000000000003\n0 put a 30 0000000000000003\njoin\n1 del a\n",
            ),
            Nothing,
            OK,
            Is(
                b"0 0:0 points 2 10:0000000000000001 20:0000000000000002\n0 0:1 late 20\n0 0:2 stored\n1 0:3 gone\n",
            ),
        ),
        Run(
            WORDS,
            Bytes(b"7 get a 0 99\n"),
            Nothing,
            OK,
            Is(b"7 0:0 absent\n"),
        ),
    ],
)];

#[test]
fn a_second_run_goes_on(rt: HostRuntime) -> Result<(), AllocError> {
    follow(&rt, &THREE_RUNS)
}

const GET: Input = Bytes(b"0 get a 0 99\n");

const REFUSED: Ends = With(Status::NotOpened {
    shard: 0,
    fault: ImageFault::Damage {
        file: FileId::Log(0),
        at: 26,
        kind: DamageKind::Kind,
    },
});

const FOUND: [Case; 2] = [
    (
        "a point",
        &[
            ONE,
            Settle,
            Run(
                WORDS,
                GET,
                Nothing,
                OK,
                Is(b"0 0:0 points 1 10:0000000000000001\n"),
            ),
        ],
    ),
    (
        "the first record of the log is of no kind",
        &[
            ONE,
            Change(FileId::Log(0), 26, 7),
            Settle,
            Run(WORDS, GET, Nothing, REFUSED, Is(b"")),
        ],
    ),
];

#[test]
fn a_run_reads_what_lies_there(rt: HostRuntime) -> Result<(), AllocError> {
    follow(&rt, &FOUND)
}

const DEVICE_FAULT: Ends = With(Status::DeviceFault { shard: 0 });

const BAD_LINE: Ends = With(Status::BadLine { line: 1 });

const FAILING: [Case; 2] = [
    (
        "the first call is one of the opening",
        &[Run(WORDS, GET, Disk(0), DEVICE_FAULT, Is(b""))],
    ),
    (
        "a bad line is found before a disk is called",
        &[Run(WORDS, Bytes(b"0 get a 0\n"), Disk(0), BAD_LINE, Is(b""))],
    ),
];

#[test]
fn a_disk_that_fails_is_told(rt: HostRuntime) -> Result<(), AllocError> {
    follow(&rt, &FAILING)
}
