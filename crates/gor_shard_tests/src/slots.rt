//! The slot of a name is looked up; then its series ends, and another name's begins in that slot, before the lock of the
//! series is taken. The steps of a call are made one after another, so that this comes between them.
ghost use Rattle.std.specs.Prelude.{◌<◌, IfOk};
ghost use Rattle.gor_model.specs.Answers.{MayPut};
ghost use Rattle.gor_model.specs.Names.{key_of};
ghost use Rattle.gor_shard_tests.specs.Passes.{IsAtHand};

use crate::shard::{NoAnswer, TestShard, has_events, named, open};
use crate::steps::{Kept, STORED, Step, all_hold, has};
use gor_disk::MemoryDisk;
use gor_hall::Pass;
use gor_outside::NoPause;
use gor_point::{DelAnswer, PutAnswer, PutReply, Shard};
use gor_steps::{
    Lookup, NewPoint, Wanted, look_up, new_point, put_again, put_at, read_again, read_at, reply,
};
use std::alloc::Global;
use std::sync::Wait;
use std::test::Fail;

/// Of the name `a`: what the other pass does before its slot is looked up and once it is; the number and the answer of the get
/// and of the put of a time that then go on with that slot; and what the pass finds after them.
#[derive(Clone, Copy)]
struct Case {
    before: &'static [Step],
    between: &'static [Step],
    read: (u64, Kept),
    put: (u64, PutReply),
    after: &'static [Step],
}

// The slot that a first look-up gives.
fn slot_found<R: Wait>(
    rt: &R,
    shard: &Shard<MemoryDisk>,
    pass: &mut Pass,
    wanted: &Wanted,
) -> Result<u32, NoAnswer>
    requires { IsAtHand shard.now pass.old }
    ensures pass { IsAtHand shard.now pass.new }
    ensures slot { IfOk result (λ slot. slot < 2) }
{
    has_events(pass)?;
    match look_up(rt, shard, pass, wanted) {
        Lookup::At(slot) => Ok(slot),
        Lookup::Missed(_) => Err(NoAnswer),
    }
}

// Whether a get goes on so where another name's series is in the slot: nothing is read there, and it looks up again.
fn reads_after<R: Wait>(
    rt: &R,
    shard: &Shard<MemoryDisk>,
    pass: &mut Pass,
    slot: u32,
    wanted: &Wanted,
    want: (u64, Kept),
) -> Result<bool, NoAnswer>
    requires pass { IsAtHand shard.now pass.old }
    requires slot { slot < 2 }
    ensures { IsAtHand shard.now pass.new }
{
    has_events(pass)?;
    if read_at(rt, shard, pass, slot, wanted, &NoPause, 0)?.is_some() {
        return Ok(false);
    }
    has_events(pass)?;
    let found = read_again(rt, shard, pass, wanted, &NoPause, 0)?;
    let (number, kept) = want;
    Ok(has(&reply(found)?, number, kept))
}

// Whether a put goes on so there: nothing is put, and it looks up again.
fn puts_after<R: Wait>(
    rt: &R,
    shard: &Shard<MemoryDisk>,
    pass: &mut Pass,
    slot: u32,
    point: &NewPoint,
    want: PutReply,
) -> Result<bool, NoAnswer>
    requires pass { IsAtHand shard.now pass.old }
    requires slot { slot < 2 }
    requires point { MayPut point.now.name.now (key_of point.now.name.now) point.now.time }
    ensures { IsAtHand shard.now pass.new }
{
    has_events(pass)?;
    match put_at(rt, shard, pass, slot, point) {
        Ok(None) => {}
        Ok(Some(_)) => return Ok(false),
        Err(_) => return Err(NoAnswer),
    }
    has_events(pass)?;
    match put_again(rt, shard, pass, point) {
        Ok(reply) => Ok(reply == want),
        Err(_) => Err(NoAnswer),
    }
}

// Whether a case goes as it says.
fn goes<R: Wait>(
    rt: &R,
    alloc: Global,
    shard: &Shard<MemoryDisk>,
    first: &mut Pass,
    second: &mut Pass,
    case: &Case,
) -> Result<bool, NoAnswer>
    requires first { IsAtHand shard.now first.old }
    requires second { IsAtHand shard.now second.old }
{
    let name = named(alloc, "a")?;
    let wanted = Wanted {
        name: &name,
        from: 0,
        to: 99,
    };
    let (time, put) = case.put;
    if time > 99 {
        return Ok(false);
    }
    let point = new_point(&name, time, time);
    let before = all_hold(rt, alloc, shard, second, case.before)?;
    let slot = slot_found(rt, shard, first, &wanted)?;
    let between = all_hold(rt, alloc, shard, second, case.between)?;
    let read = reads_after(rt, shard, first, slot, &wanted, case.read)?;
    let put = puts_after(rt, shard, first, slot, &point, put)?;
    let after = all_hold(rt, alloc, shard, first, case.after)?;
    Ok(before && between && read && put && after)
}

const LEFT_ALONE: Case = Case {
    before: &[Step::Put("a", 10, 0, STORED), Step::Put("c", 15, 1, STORED)],
    between: &[
        Step::Del("a", 2, DelAnswer::Gone),
        Step::Put("b", 20, 3, STORED),
    ],
    read: (4, Kept::Absent),
    put: (
        30,
        PutReply {
            number: 5,
            answer: PutAnswer::Full { slots: 2 },
        },
    ),
    after: &[Step::Get("b", 6, Kept::Times(&[20]))],
};

const IN_ITS_NEXT_SLOT: Case = Case {
    before: &[Step::Put("a", 10, 0, STORED)],
    between: &[
        Step::Del("a", 1, DelAnswer::Gone),
        Step::Put("b", 20, 2, STORED),
        Step::Put("a", 40, 3, STORED),
    ],
    read: (4, Kept::Times(&[40])),
    put: (
        50,
        PutReply {
            number: 5,
            answer: STORED,
        },
    ),
    after: &[Step::Get("a", 6, Kept::Times(&[40, 50]))],
};

// Whether a case goes as it says on a new shard.
fn runs<R: Wait>(rt: &R, alloc: Global, case: &Case) -> Result<bool, Fail> {
    let TestShard {
        shard,
        mut first,
        mut second,
    } = open(alloc)?;
    Ok(goes(rt, alloc, &shard, &mut first, &mut second, case)?)
}

#[test]
fn a_slot_that_another_name_took_is_left_alone(rt: HostRuntime) -> Result<(), Fail> {
    assert!(rt; runs(&rt, rt.alloc(), &LEFT_ALONE)?);
    Ok(())
}

#[test]
fn a_name_is_found_in_its_next_slot(rt: HostRuntime) -> Result<(), Fail> {
    assert!(rt; runs(&rt, rt.alloc(), &IN_ITS_NEXT_SLOT)?);
    Ok(())
}
