//! What a stop of the machine, a failing disk and a restart leave of runs.
use crate::machine::Fails::{Disk, Nothing};
use crate::machine::Input::{self, Bytes, OneName};
use crate::steps::Ends::{self, Refused, With};
use crate::steps::Step::{self, Cut, Dump, Holds, HoldsAt, Restart, Run, StopInLog};
use crate::steps::Text::{self, Any, EndsWith, Is, OneOf};
use crate::steps::{Case, OK, first_other, follow, is_done, stopped_at};
use gor_disk::{DiskKind, FileId, MemoryDisk};
use gor_run::Status;
use std::alloc::AllocError;
use std::process::Abort;
use std::sync::Wait;
use std::thread::Threads;

const WORDS: &str = "run --shards 1";

const DUMP: &str = "dump --shards 1";

const A: &[u8] = b"0 a floor 0 points 1 10:0000000000000001\n";

const AB: &[u8] =
    b"0 a floor 0 points 1 10:0000000000000001\n0 b floor 0 points 1 10:0000000000000002\n";

/// A run that puts one point.
const ONE_POINT: Step = Run(
    WORDS,
    Bytes(b"0 put a 10 0000000000000001\n"),
    Nothing,
    OK,
    Is(b"0 0:0 stored\n"),
);

/// A run that puts a point and flushes it.
const ONCE: Step = Run(
    WORDS,
    Bytes(b"0 put a 10 0000000000000001\n0 flush 0\n"),
    Nothing,
    OK,
    Is(b"0 0:0 stored\n0 0:1 take 1\n0 0:2 done 1\n"),
);

const TWICE: Input = Bytes(
    b"0 put a 10 0000000000000001\n0 flush 0\n0 put b 10 0000000000000002\n0 flush 0\n",
);

/// A run that does so twice.
const BOTH: Step = Run(
    WORDS,
    TWICE,
    Nothing,
    OK,
    Is(b"0 0:0 stored\n0 0:1 take 1\n0 0:2 done 1\n0 0:3 stored\n0 0:4 take 1\n0 0:5 done 2\n"),
);

const GET: Input = Bytes(b"0 get a 0 99\n");

// ---- what is answered, and what stands afterwards

const SHORT: [Case; 2] = [
    (
        "an empty input leaves an empty store",
        &[
            Run(WORDS, Bytes(b""), Nothing, OK, Is(b"")),
            Restart,
            Dump(DUMP, Nothing, OK, Is(b"")),
        ],
    ),
    (
        "flushes are answered",
        &[Run(
            WORDS,
            Bytes(b"0 put a 10 0000000000000001\n0 flush 0\n0 flush 0\n0 flush 1\n"),
            Nothing,
            OK,
            Is(
                b"0 0:0 stored\n0 0:1 take 1\n0 0:2 done 1\n0 0:3 take 0\n0 0:4 done 1\n0 - shard\n",
            ),
        )],
    ),
];

#[test]
fn short_runs_are_answered(rt: HostRuntime) -> Result<(), AllocError> {
    follow(&rt, &SHORT)
}

const FILES: [Case; 1] = [(
    "one point",
    &[
        ONE_POINT,
        Restart,
        Holds(
            FileId::Marks,
            &[1, 0, 0, 0, 0, 0, 0, 0, 10, 1, 1, 0, 0, 0, 1, 0, 0, 0, 0, 0],
        ),
        Holds(
            FileId::Keys(0),
            &[
                1, 0, 0, 0, 0, 0, 0, 0, 20, 1, 1, 0, 0, 0, 0, 0, 0, 0, 1, 0, 0, 0, 0, 0, 0, 0, 0,
                1, 97, 0,
            ],
        ),
        Holds(
            FileId::Log(0),
            &[
                1, 0, 0, 0, 0, 0, 0, 0, 38, 1, 0, 0, 0, 0, 0, 0, 0, 1, 0, 0, 0, 0, 0, 0, 0, 1, 1,
                0, 0, 0, 0, 0, 0, 0, 1, 0, 0, 0, 10, 0, 0, 0, 0, 0, 0, 0, 1, 0,
            ],
        ),
    ],
)];

#[test]
fn the_files_of_one_point(rt: HostRuntime) -> Result<(), AllocError> {
    follow(&rt, &FILES)
}

const CUTS: [Case; 2] = [
    (
        "within a body",
        &[
            ONE_POINT,
            Restart,
            Cut(FileId::Log(0), 30),
            Run(
                WORDS,
                GET,
                Nothing,
                Refused("gorilla: shard 0: damage in log.0 at 0: cut"),
                Is(b""),
            ),
        ],
    ),
    (
        "behind it",
        &[
            ONE_POINT,
            Restart,
            Cut(FileId::Log(0), 47),
            Run(
                WORDS,
                GET,
                Nothing,
                OK,
                Is(b"0 0:0 points 1 10:0000000000000001\n"),
            ),
        ],
    ),
];

#[test]
fn a_cut_log_is_refused_within_a_body_alone(rt: HostRuntime) -> Result<(), AllocError> {
    follow(&rt, &CUTS)
}

/// A run with two slots for three names.
const TWO_SLOTS: Step = Run(
    "run --shards 1 --slots 2",
    Bytes(
        b"0 put a 10 0000000000000001\n0 put b 10 0000000000000002\n0 put c 10 0000000000000003\n0 del a\n0 put c 10 0000000000000003\n0 get c 0 99\n0 get a 0 99\n",
    ),
    Nothing,
    OK,
    Is(
        b"0 0:0 stored\n0 0:1 stored\n0 0:2 full 2\n0 0:3 gone\n0 0:4 stored\n0 0:5 points 1 10:0000000000000003\n0 0:6 absent\n",
    ),
);

const SLOTS: [Case; 2] = [
    (
        "the same slots",
        &[
            TWO_SLOTS,
            Run(
                "run --shards 1 --slots 2",
                Bytes(b"0 get c 0 99\n0 get a 0 99\n"),
                Nothing,
                OK,
                Is(b"0 0:0 points 1 10:0000000000000003\n0 0:1 absent\n"),
            ),
        ],
    ),
    (
        "fewer slots",
        &[
            TWO_SLOTS,
            Run(
                "run --shards 1 --slots 1",
                Bytes(b"0 get c 0 99\n"),
                Nothing,
                Refused("gorilla: shard 0: slots needed 2, given 1"),
                Is(b""),
            ),
        ],
    ),
];

#[test]
fn slots_and_homes_are_kept_over_a_restart(rt: HostRuntime) -> Result<(), AllocError> {
    follow(&rt, &SLOTS)
}

const DUE: [Case; 1] = [(
    "3,121 puts",
    &[Run(
        WORDS,
        OneName(3122),
        Nothing,
        OK,
        EndsWith(b"0 0:3119 stored\n0 0:3120 stored\n0 0:3121 take 3121\n0 0:3122 done 3121\n"),
    )],
)];

#[test]
fn a_due_put_is_followed_by_a_flush(rt: HostRuntime) -> Result<(), AllocError> {
    follow(&rt, &DUE)
}

// ---- stops of the machine, and of a shard

/// What a dump may have that comes after a stop at this moment.
fn left_at(moment: u64, flushed: u64, last: u64) -> Text {
    if moment < flushed {
        OneOf(&[b"", A, AB])
    } else if moment < last {
        OneOf(&[A, AB])
    } else {
        Is(AB)
    }
}

/// Whether a dump of what a stop leaves is as it may be.
fn is_left<R: AllocGlobal + Threads + Wait + Sync>(
    rt: &R,
    disk: &MemoryDisk,
    (moment, choice): (u64, u64),
    text: Text,
) -> Result<bool, AllocError> {
    let mut left = stopped_at(disk, moment, choice)?;
    is_done(rt, &mut left, Dump(DUMP, Nothing, OK, text))
}

/// A stop at each moment of two flushes; the first stands once so many calls were made.
fn stop_at_each<R: AllocGlobal + Threads + Wait + Sync + Abort>(
    rt: &R,
    disk: &MemoryDisk,
    flushed: u64,
) -> Result<(), AllocError> {
    let last = disk.calls().len() as u64;
    for moment in 0..=last {
        for choice in 0..4u64 {
            let text = left_at(moment, flushed, last);
            let is_so = is_left(rt, disk, (moment, choice), text)?;
            assert!(rt; is_so, "moment {moment}, choice {choice}");
        }
    }
    Ok(())
}

/// The disk after a step on an empty one.
pub fn disk_after<R: AllocGlobal + Threads + Wait + Sync + Abort>(
    rt: &R,
    step: Step,
) -> Result<MemoryDisk, AllocError> {
    let mut disk = MemoryDisk::new(rt.alloc());
    let is_so = is_done(rt, &mut disk, step)?;
    assert!(rt; is_so);
    Ok(disk)
}

#[test]
fn every_stop_leaves_what_was_flushed(rt: HostRuntime) -> Result<(), AllocError> {
    let flushed = disk_after(&rt, ONCE)?.calls().len() as u64;
    stop_at_each(&rt, &disk_after(&rt, BOTH)?, flushed)
}

const IN_LOG: [Case; 2] = [
    (
        "a dump",
        &[BOTH, StopInLog(1), Dump(DUMP, Nothing, OK, Is(A))],
    ),
    (
        "another run",
        &[
            BOTH,
            StopInLog(1),
            Run(
                WORDS,
                Bytes(b"0 put c 10 0000000000000003\n"),
                Nothing,
                OK,
                Is(b"0 0:0 stored\n"),
            ),
            Restart,
            Dump(
                DUMP,
                Nothing,
                OK,
                Is(
                    b"0 a floor 0 points 1 10:0000000000000001\n0 c floor 0 points 1 10:0000000000000003\n",
                ),
            ),
            // The stale record of the key list has the number 2, so the next change has the number 3.
            HoldsAt(
                FileId::Log(0),
                57,
                &[0, 0, 0, 0, 0, 0, 0, 3, 0, 0, 0, 0, 0, 0, 0, 3],
            ),
        ],
    ),
];

#[test]
fn a_stop_within_a_log_write_keeps_the_first_flush(rt: HostRuntime) -> Result<(), AllocError> {
    follow(&rt, &IN_LOG)
}

/// The place of the first sync of the key list behind the last call on the marks.
fn first_key_sync(disk: &MemoryDisk) -> Option<u64> {
    let mut place_of = None;
    for (place, call) in disk.calls().iter().enumerate() {
        if call.file == FileId::Marks {
            place_of = None;
        } else if place_of.is_none()
            && call.file == FileId::Keys(0)
            && call.kind == DiskKind::Sync
        {
            place_of = Some(place as u64);
        }
    }
    place_of
}

const DEVICE_FAULT: Ends = With(Status::DeviceFault { shard: 0 });

const GO_ON: Input = Bytes(
    b"0 put a 10 0000000000000001\n0 flush 0\n0 put a 11 0000000000000002\n0 get a 0 99\n",
);

const GOES_ON: Step = Run(
    WORDS,
    GO_ON,
    Nothing,
    OK,
    Is(
        b"0 0:0 stored\n0 0:1 take 1\n0 0:2 done 1\n0 0:3 stored\n0 0:4 points 2 10:0000000000000001 11:0000000000000002\n",
    ),
);

const STOPPED: Text = Is(
    b"0 0:0 stored\n0 0:1 take 1\n0 0:2 stop\n0 0:3 stopped\n0 0:4 points 1 10:0000000000000001\n",
);

#[test]
fn a_failing_disk_stops_its_shard(rt: HostRuntime) -> Result<(), AllocError> {
    let place = first_key_sync(&disk_after(&rt, GOES_ON)?);
    assert!(rt; place.is_some());
    let failing = Run(
        WORDS,
        GO_ON,
        Disk(place.unwrap_or(0)),
        DEVICE_FAULT,
        STOPPED,
    );
    let other = first_other(&rt, &[failing])?;
    assert!(rt; other.is_none(), "the first sync of the key list");
    Ok(())
}

/// What a dump may have behind a failure.
const MAY_BE: Step = Dump(DUMP, Nothing, OK, OneOf(&[b"", A, AB]));

#[test]
fn each_failing_call_has_its_status(rt: HostRuntime) -> Result<(), AllocError> {
    let calls = disk_after(&rt, BOTH)?.calls().len() as u64;
    for place in 0..calls {
        let run = Run(WORDS, TWICE, Disk(place), DEVICE_FAULT, Any);
        let other = first_other(&rt, &[run, Restart, MAY_BE])?;
        assert!(rt; other.is_none(), "call {place}: step {other:?}");
    }
    Ok(())
}
