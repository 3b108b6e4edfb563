//! Which reads of a run pause, and the lane and the place that each is told.
use crate::machine::Fails::Nothing;
use crate::machine::{Input, call_of, called_run, disks_with};
use gor_disk::MemoryDisk;
use gor_outside::Pause;
use gor_run::Status;
use std::alloc::{AllocError, Global};
use std::sync::Wait;
use std::sync::atomic::{AtomicU64, Ordering};
use std::thread::Threads;

/// How often reads paused: a number for each of the eight lanes, in which the first place is the last hexadecimal digit,
/// and one behind them for any other lane.
#[derive(Drop)]
struct Noted {
    lanes: Vec<AtomicU64>,
}

impl Noted {
    fn new(alloc: Global) -> Result<Noted, AllocError> {
        let mut lanes = Vec::new(alloc);
        for _ in 0..9 {
            lanes.push(AtomicU64::new(0))?;
        }
        Ok(Noted { lanes })
    }

    fn is(&self, wanted: &[u64]) -> bool {
        for (lane, noted) in self.lanes.iter().enumerate() {
            if noted.load(Ordering::SeqCst) != wanted.get(lane).copied().unwrap_or(0) {
                return false;
            }
        }
        true
    }
}

impl Pause for Noted {
    ghost use Rattle.std.specs.Prelude.{⊤};

    ghost called = { λ _ _ _ _. ⊤ };

    fn at(&self, lane: u32, place: u32) {
        let digit = 1u64.checked_shl(place.saturating_mul(4));
        if let Some(noted) = self.lanes.get((lane as usize).min(8)) {
            noted.fetch_add(digit.unwrap_or(u64::MAX), Ordering::SeqCst);
        }
    }
}

/// A name, an input, its answers where lanes do not run beside each other, and what is noted of each lane.
type Row = (&'static str, &'static [u8], Option<&'static [u8]>, [u64; 8]);

const ROWS: [Row; 4] = [
    (
        "each get of a series that is there, with its place among all lines of its lane",
        b"0 put a 10 0000000000000001\n0 get a 0 99\n0 get b 0 99\n# a comment\n\n0 get A 50 99\n0 get a 9 0\n0 del a\n0 get a 0 99\n",
        Some(
            b"0 0:0 stored\n0 0:1 points 1 10:0000000000000001\n0 0:2 absent\n0 0:3 points 0\n0 - range\n0 0:4 gone\n0 0:5 absent\n",
        ),
        [0x1010, 0, 0, 0, 0, 0, 0, 0],
    ),
    (
        "places begin anew in each phase",
        b"0 put a 10 0000000000000001\n0 get a 0 99\njoin\n0 get a 0 99\n0 get b 0 99\n0 get a 0 9\njoin\n5 flush 0\n5 get a 0 99\n",
        Some(
            b"0 0:0 stored\n0 0:1 points 1 10:0000000000000001\n0 0:2 points 1 10:0000000000000001\n0 0:3 absent\n0 0:4 points 0\n5 0:5 take 1\n5 0:6 done 1\n5 0:7 points 1 10:0000000000000001\n",
        ),
        [0x111, 0, 0, 0, 0, 0x10, 0, 0],
    ),
    (
        "lanes beside each other, whose lines are mixed",
        b"0 put a 10 0000000000000001\n3 put b 10 0000000000000002\njoin\n7 get z 0 99\n0 get a 0 99\n1 get z 0 99\n0 get z 0 99\n3 put d 10 0000000000000003\n2 get a 9 0\n1 get b 0 99\n2 get \x01 0 99\n3 get d 0 99\n0 put a 20 0000000000000004\n2 get a 0 99\n3 del d\n0 get A 0 99\n3 get d 0 99\n1 get B 0 9\n",
        None,
        [0x1001, 0x110, 0x100, 0x10, 0, 0, 0, 0],
    ),
    (
        "no get of a series that is there",
        b"0 get a 0 99\n1 put b 10 0000000000000001\n1 del b\n1 get b 0 99\n2 flush 0\n",
        None,
        [0; 8],
    ),
];

/// Whether a run on an empty disk ends well, with this text where there is one, and is noted so.
fn is_noted<R: AllocGlobal + Threads + Wait + Sync>(
    rt: &R,
    (_, input, text, wanted): &Row,
) -> Result<bool, AllocError> {
    let alloc = rt.alloc();
    let noted = Noted::new(alloc)?;
    let mut call = call_of(alloc, "run --shards 1", Input::Bytes(input), Nothing, 50)?;
    let disks = disks_with(alloc, MemoryDisk::new(alloc))?;
    let outcome = called_run(
        rt,
        &call.words,
        &mut call.source,
        &mut call.sink,
        disks,
        &noted,
    );
    let is_text = text.is_none_or(|text| call.sink.bytes() == text);
    Ok(outcome.status == Status::Ok && is_text && noted.is(wanted))
}

#[test]
fn gets_of_what_is_there_pause_at_their_place(rt: HostRuntime) -> Result<(), AllocError> {
    for row in &ROWS {
        let is_so = is_noted(&rt, row)?;
        assert!(rt; is_so, "{}", row.0);
    }
    Ok(())
}
