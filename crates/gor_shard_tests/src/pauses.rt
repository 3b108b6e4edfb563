//! A get of a series that is there pauses once, with its lane and the place that it was given; one of an absent key does not.
ghost use Rattle.gor_shard_tests.specs.Passes.{IsAtHand};

use crate::shard::{NoAnswer, TestShard, has_events, named, open};
use crate::steps::{Kept, STORED, Step, has, makes};
use gor_disk::MemoryDisk;
use gor_hall::Pass;
use gor_name::Name;
use gor_outside::Pause;
use gor_point::{Shard, get};
use std::alloc::Global;
use std::cell::Cell;
use std::sync::Wait;
use std::test::Fail;

// How often it was called, and what the last call was given.
#[derive(Drop)]
struct Counted {
    calls: Cell<u32>,
    lane: Cell<u32>,
    place: Cell<u32>,
}

impl Pause for Counted {
    ghost use Rattle.std.specs.Prelude.{⊤};

    ghost called = { λ _ _ _ _. ⊤ };

    fn at(&self, lane: u32, place: u32) {
        self.calls.set(self.calls.get().saturating_add(1));
        self.lane.set(lane);
        self.place.set(place);
    }
}

// Reads the times up to 99 as the line at the place 7.
fn reads<R: Wait>(
    rt: &R,
    shard: &Shard<MemoryDisk>,
    pass: &mut Pass,
    name: &Name,
    counted: &Counted,
    number: u64,
    kept: Kept,
) -> Result<bool, NoAnswer>
    requires { IsAtHand shard.now pass.old }
    ensures { IsAtHand shard.now pass.new }
{
    has_events(pass)?;
    match get(rt, shard, pass, name, 0, 99, counted, 7) {
        Ok(reply) => Ok(has(&reply, number, kept)),
        Err(_) => Err(NoAnswer),
    }
}

// Reads a name before it has a series and once it has one.
fn pauses_once<R: Wait>(
    rt: &R,
    alloc: Global,
    shard: &Shard<MemoryDisk>,
    pass: &mut Pass,
    counted: &Counted,
) -> Result<bool, NoAnswer>
    requires { IsAtHand shard.now pass.old }
{
    let a = named(alloc, "a")?;
    let absent = reads(rt, shard, pass, &a, counted, 0, Kept::Absent)?;
    let none = counted.calls.get() == 0;
    let put = makes(rt, alloc, shard, pass, Step::Put("a", 10, 1, STORED))?;
    let read = reads(rt, shard, pass, &a, counted, 2, Kept::Times(&[10]))?;
    Ok(absent && none && put && read)
}

#[test]
fn a_get_pauses_once(rt: HostRuntime) -> Result<(), Fail> {
    let TestShard {
        shard,
        mut second,
        ..
    } = open(rt.alloc())?;
    let counted = Counted {
        calls: Cell::new(0),
        lane: Cell::new(99),
        place: Cell::new(99),
    };
    assert!(rt; pauses_once(&rt, rt.alloc(), &shard, &mut second, &counted)?);
    assert_eq!(rt;
        (counted.calls.get(), counted.lane.get(), counted.place.get()),
        (1, 1, 7)
    );
    Ok(())
}
