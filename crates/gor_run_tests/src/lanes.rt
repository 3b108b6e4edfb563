//! Lanes beside each other.
use crate::machine::Fails::Nothing;
use crate::machine::Input::{self, Bytes};
use crate::machine::{call_of, called_run, disks_with};
use crate::steps::is_one_of;
use gor_disk::MemoryDisk;
use gor_outside::{NoPause, Pause};
use gor_run::Status;
use std::alloc::AllocError;
use std::sync::Wait;
use std::sync::atomic::{AtomicU64, Ordering};
use std::thread::Threads;

/// Holds a read of lane 0 until lane 1 reads, or for so many turns that lanes cannot run beside each other.
#[derive(Drop)]
struct Meeting {
    called: AtomicU64,
    missed: AtomicU64,
}

impl Pause for Meeting {
    ghost use Rattle.std.specs.Prelude.{⊤};

    ghost called = { λ _ _ _ _. ⊤ };

    fn at(&self, lane: u32, place: u32) {
        let _ = place;
        if lane == 1 {
            self.called.store(1, Ordering::SeqCst);
            return;
        }
        for _turn in 0..200_000_000u64 {
            if self.called.load(Ordering::SeqCst) == 1 {
                return;
            }
        }
        self.missed.store(1, Ordering::SeqCst);
    }
}

/// Whether a run on an empty disk ends well, with one of some texts.
fn is_answered<R: AllocGlobal + Threads + Wait + Sync, P: Pause + Sync>(
    rt: &R,
    input: Input,
    pause: &P,
    texts: &[&[u8]],
) -> Result<bool, AllocError> {
    let alloc = rt.alloc();
    let mut call = call_of(alloc, "run --shards 1", input, Nothing, 5)?;
    let disks = disks_with(alloc, MemoryDisk::new(alloc))?;
    let outcome = called_run(
        rt,
        &call.words,
        &mut call.source,
        &mut call.sink,
        disks,
        pause,
    );
    Ok(outcome.status == Status::Ok && is_one_of(call.sink.bytes(), texts))
}

const MEETING: Input = Bytes(
    b"0 put a 10 0000000000000001\n0 put b 10 0000000000000002\njoin\n0 get a 0 99\n1 put b 11 0000000000000003\n1 get b 0 99\n",
);

// What they are told, by the number of the read of lane 0.
const MET: [&[u8]; 3] = [
    b"0 0:0 stored\n0 0:1 stored\n0 0:2 points 1 10:0000000000000001\n1 0:3 stored\n1 0:4 points 2 10:0000000000000002 11:0000000000000003\n",
    b"0 0:0 stored\n0 0:1 stored\n0 0:3 points 1 10:0000000000000001\n1 0:2 stored\n1 0:4 points 2 10:0000000000000002 11:0000000000000003\n",
    b"0 0:0 stored\n0 0:1 stored\n0 0:4 points 1 10:0000000000000001\n1 0:2 stored\n1 0:3 points 2 10:0000000000000002 11:0000000000000003\n",
];

#[test]
fn lanes_run_beside_each_other(rt: HostRuntime) -> Result<(), AllocError> {
    let meeting = Meeting {
        called: AtomicU64::new(0),
        missed: AtomicU64::new(0),
    };
    assert!(rt; is_answered(&rt, MEETING, &meeting, &MET)?);
    assert_eq!(rt; meeting.missed.load(Ordering::SeqCst), 0);
    Ok(())
}

const TWO_LANES: Input = Bytes(
    b"0 put a 10 0000000000000001\n1 put a 20 0000000000000002\n0 put a 30 0000000000000003\n1 put a 40 0000000000000004\n",
);

// What two lanes are told that put to one name, lane 0 at 10 and 30 and lane 1 at 20 and 40, by the order of the numbers: each
// late answer names the greatest time that was stored before it.
const TWO_ANSWERS: [&[u8]; 6] = [
    // 10, 30, 20, 40
    b"0 0:0 stored\n0 0:1 stored\n1 0:2 late 30\n1 0:3 stored\n",
    // 10, 20, 30, 40
    b"0 0:0 stored\n0 0:2 stored\n1 0:1 stored\n1 0:3 stored\n",
    // 10, 20, 40, 30
    b"0 0:0 stored\n0 0:3 late 40\n1 0:1 stored\n1 0:2 stored\n",
    // 20, 10, 30, 40
    b"0 0:1 late 20\n0 0:2 stored\n1 0:0 stored\n1 0:3 stored\n",
    // 20, 10, 40, 30
    b"0 0:1 late 20\n0 0:3 late 40\n1 0:0 stored\n1 0:2 stored\n",
    // 20, 40, 10, 30
    b"0 0:2 late 40\n0 0:3 late 40\n1 0:0 stored\n1 0:1 stored\n",
];

#[test]
fn two_lanes_on_one_name(rt: HostRuntime) -> Result<(), AllocError> {
    for turn in 0..20 {
        let is_so = is_answered(&rt, TWO_LANES, &NoPause, &TWO_ANSWERS)?;
        assert!(rt; is_so, "turn {turn}");
    }
    Ok(())
}
