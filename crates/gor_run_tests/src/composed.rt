//! A run on what a stop of another run left: it begins from the map that this image holds.
use crate::machine::Fails::Nothing;
use crate::machine::Input::{self, Bytes};
use crate::steps::Step::{self, Dump, Restart, Run};
use crate::steps::Text::Is;
use crate::steps::{OK, is_done, stopped_at};
use crate::stops::disk_after;
use gor_disk::MemoryDisk;
use std::alloc::AllocError;
use std::process::Abort;
use std::sync::Wait;
use std::thread::Threads;

const WORDS: &str = "run --shards 1";

const DUMP: &str = "dump --shards 1";

/// A run that flushes two points.
const ONE_FLUSH: Step = Run(
    WORDS,
    Bytes(b"0 put a 10 0000000000000001\n0 put B 10 0000000000000002\n0 flush 0\n"),
    Nothing,
    OK,
    Is(b"0 0:0 stored\n0 0:1 stored\n0 0:2 take 2\n0 0:3 done 2\n"),
);

/// A run that goes on so, and flushes another point and a delete.
const TWO_FLUSHES: Step = Run(
    WORDS,
    Bytes(
        b"0 put a 10 0000000000000001\n0 put B 10 0000000000000002\n0 flush 0\n0 put a 20 0000000000000003\n0 del b\n0 flush 0\n",
    ),
    Nothing,
    OK,
    Is(
        b"0 0:0 stored\n0 0:1 stored\n0 0:2 take 2\n0 0:3 done 2\n0 0:4 stored\n0 0:5 gone\n0 0:6 take 2\n0 0:7 done 4\n",
    ),
);

/// What the run after a stop is given.
const NEXT: Input = Bytes(
    b"0 get a 0 99\n0 get b 0 99\n0 put b 5 0000000000000004\n0 put A 15 0000000000000005\n0 get a 0 99\n0 get b 0 99\n",
);

/// A map that a stop may leave, as it is dumped; what the next run answers from there; and the map after it.
type State = (&'static [u8], &'static [u8], &'static [u8]);

// The map before the first flush, after it, and after the second.
const STATES: [State; 3] = [
    (
        b"",
        b"0 0:0 absent\n0 0:1 absent\n0 0:2 stored\n0 0:3 stored\n0 0:4 points 1 15:0000000000000005\n0 0:5 points 1 5:0000000000000004\n",
        b"0 A floor 0 points 1 15:0000000000000005\n0 b floor 0 points 1 5:0000000000000004\n",
    ),
    (
        b"0 a floor 0 points 1 10:0000000000000001\n0 B floor 0 points 1 10:0000000000000002\n",
        b"0 0:0 points 1 10:0000000000000001\n0 0:1 points 1 10:0000000000000002\n0 0:2 late 10\n0 0:3 stored\n0 0:4 points 2 10:0000000000000001 15:0000000000000005\n0 0:5 points 1 10:0000000000000002\n",
        b"0 a floor 0 points 2 10:0000000000000001 15:0000000000000005\n0 B floor 0 points 1 10:0000000000000002\n",
    ),
    (
        b"0 a floor 0 points 2 10:0000000000000001 20:0000000000000003\n",
        b"0 0:0 points 2 10:0000000000000001 20:0000000000000003\n0 0:1 absent\n0 0:2 stored\n0 0:3 late 20\n0 0:4 points 2 10:0000000000000001 20:0000000000000003\n0 0:5 points 1 5:0000000000000004\n",
        b"0 a floor 0 points 2 10:0000000000000001 20:0000000000000003\n0 b floor 0 points 1 5:0000000000000004\n",
    ),
];

/// Whether a disk holds the map of a state, and the next run goes on from it.
fn goes_on<R: AllocGlobal + Threads + Wait + Sync>(
    rt: &R,
    disk: &mut MemoryDisk,
    (held, answers, after): State,
) -> Result<bool, AllocError> {
    let steps = [
        Dump(DUMP, Nothing, OK, Is(held)),
        Run(WORDS, NEXT, Nothing, OK, Is(answers)),
        Restart,
        Dump(DUMP, Nothing, OK, Is(after)),
    ];
    for step in &steps {
        if !is_done(rt, disk, *step)? {
            return Ok(false);
        }
    }
    Ok(true)
}

/// The place of the state from which a run goes on after a stop.
fn state_left<R: AllocGlobal + Threads + Wait + Sync>(
    rt: &R,
    disk: &MemoryDisk,
    (moment, choice): (u64, u64),
) -> Result<Option<usize>, AllocError> {
    for (place, state) in STATES.iter().enumerate() {
        let mut left = stopped_at(disk, moment, choice)?;
        if goes_on(rt, &mut left, *state)? {
            return Ok(Some(place));
        }
    }
    Ok(None)
}

/// Whether a stop at a moment may leave the state of a place, where the first flush stands at one moment and the second at
/// another.
fn may_be_left(moment: u64, flushed: u64, last: u64, place: usize) -> bool {
    if moment < flushed {
        place <= 1
    } else if moment < last {
        1 <= place
    } else {
        place == 2
    }
}

/// A run after a stop at each moment.
fn go_on_after_each<R: AllocGlobal + Threads + Wait + Sync + Abort>(
    rt: &R,
    disk: &MemoryDisk,
    flushed: u64,
) -> Result<(), AllocError> {
    let last = disk.calls().len() as u64;
    for moment in 0..=last {
        for choice in 0..4u64 {
            let state = state_left(rt, disk, (moment, choice))?;
            let is_so = state.is_some_and(|place| may_be_left(moment, flushed, last, place));
            assert!(rt; is_so, "moment {moment}, choice {choice}: {state:?}");
        }
    }
    Ok(())
}

#[test]
fn a_run_begins_from_what_an_image_holds(rt: HostRuntime) -> Result<(), AllocError> {
    let flushed = disk_after(&rt, ONE_FLUSH)?.calls().len() as u64;
    go_on_after_each(&rt, &disk_after(&rt, TWO_FLUSHES)?, flushed)
}
