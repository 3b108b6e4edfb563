//! A call on a shard with the answer that is wanted, as data.
ghost use Rattle.gor_shard_tests.specs.Passes.{IsAtHand};

use crate::shard::{NoAnswer, TestShard, has_events, named, open};
use gor_disk::MemoryDisk;
use gor_hall::Pass;
use gor_model::Point;
use gor_name::Name;
use gor_outside::NoPause;
use gor_point::{
    DelAnswer, DelReply, GetAnswer, GetReply, PutAnswer, PutReply, Shard, del, get, put, try_get,
};
use std::alloc::Global;
use std::process::Abort;
use std::sync::Wait;
use std::test::Fail;

/// The answer of a put that is stored.
pub(crate) const STORED: PutAnswer = PutAnswer::Stored { due: false };

/// What a get gives: these times, each the word of its point; or that no series has the name.
#[derive(Clone, Copy)]
pub(crate) enum Kept {
    Times(&'static [u64]),
    Absent,
}

/// A call by a pass, with the number of its event and its answer. A put puts a time as its own word, and a get reads the
/// times up to 99.
#[derive(Clone, Copy)]
pub(crate) enum Step {
    Put(&'static str, u64, u64, PutAnswer),
    Get(&'static str, u64, Kept),
    /// A get that waits for nobody.
    Try(&'static str, u64, Kept),
    Del(&'static str, u64, DelAnswer),
    /// No call: so many events are left to the pass.
    Left(u64),
}

/// Whether a reply has this number and these points.
pub(crate) fn has(reply: &GetReply, number: u64, kept: Kept) -> bool {
    if reply.number != number {
        return false;
    }
    match (&reply.answer, kept) {
        (GetAnswer::Points(points), Kept::Times(times)) => are_times(points.as_slice(), times),
        (GetAnswer::Absent, Kept::Absent) => true,
        _ => false,
    }
}

fn are_times(points: &[Point], times: &[u64]) -> bool {
    if points.len() != times.len() {
        return false;
    }
    for (point, time) in points.iter().zip(times) {
        if point.time != *time || point.word != *time {
            return false;
        }
    }
    true
}

fn puts<R: Wait>(
    rt: &R,
    shard: &Shard<MemoryDisk>,
    pass: &mut Pass,
    name: &Name,
    time: u64,
    want: PutReply,
) -> Result<bool, NoAnswer>
    requires { IsAtHand shard.now pass.old }
    ensures { IsAtHand shard.now pass.new }
{
    has_events(pass)?;
    match put(rt, shard, pass, name, time, time) {
        Ok(reply) => Ok(reply == want),
        Err(_) => Err(NoAnswer),
    }
}

fn gets<R: Wait>(
    rt: &R,
    shard: &Shard<MemoryDisk>,
    pass: &mut Pass,
    name: &Name,
    number: u64,
    kept: Kept,
) -> Result<bool, NoAnswer>
    requires { IsAtHand shard.now pass.old }
    ensures { IsAtHand shard.now pass.new }
{
    has_events(pass)?;
    match get(rt, shard, pass, name, 0, 99, &NoPause, 0) {
        Ok(reply) => Ok(has(&reply, number, kept)),
        Err(_) => Err(NoAnswer),
    }
}

fn tries(
    shard: &Shard<MemoryDisk>,
    pass: &mut Pass,
    name: &Name,
    number: u64,
    kept: Kept,
) -> Result<bool, NoAnswer>
    requires { IsAtHand shard.now pass.old }
    ensures { IsAtHand shard.now pass.new }
{
    has_events(pass)?;
    match try_get(shard, pass, name, 0, 99) {
        Ok(reply) => Ok(has(&reply, number, kept)),
        Err(_) => Err(NoAnswer),
    }
}

fn deletes<R: Wait>(
    rt: &R,
    shard: &Shard<MemoryDisk>,
    pass: &mut Pass,
    name: &Name,
    want: DelReply,
) -> Result<bool, NoAnswer>
    requires { IsAtHand shard.now pass.old }
    ensures { IsAtHand shard.now pass.new }
{
    has_events(pass)?;
    match del(rt, shard, pass, name) {
        Ok(reply) => Ok(reply == want),
        Err(_) => Err(NoAnswer),
    }
}

/// Makes a call, and tells whether it was answered as the step says.
pub(crate) fn makes<R: Wait>(
    rt: &R,
    alloc: Global,
    shard: &Shard<MemoryDisk>,
    pass: &mut Pass,
    step: Step,
) -> Result<bool, NoAnswer>
    requires { IsAtHand shard.now pass.old }
    ensures { IsAtHand shard.now pass.new }
{
    match step {
        Step::Put(text, time, number, answer) => {
            let name = named(alloc, text)?;
            puts(rt, shard, pass, &name, time, PutReply { number, answer })
        }
        Step::Get(text, number, kept) => {
            let name = named(alloc, text)?;
            gets(rt, shard, pass, &name, number, kept)
        }
        Step::Try(text, number, kept) => {
            let name = named(alloc, text)?;
            tries(shard, pass, &name, number, kept)
        }
        Step::Del(text, number, answer) => {
            let name = named(alloc, text)?;
            deletes(rt, shard, pass, &name, DelReply { number, answer })
        }
        Step::Left(events) => Ok(pass.left() == events),
    }
}

// The place of the first step that is answered otherwise.
fn first_wrong<R: Wait>(
    rt: &R,
    alloc: Global,
    shard: &Shard<MemoryDisk>,
    pass: &mut Pass,
    steps: &[Step],
) -> Result<Option<usize>, NoAnswer>
    requires { IsAtHand shard.now pass.old }
    ensures { IsAtHand shard.now pass.new }
{
    for (place, step) in steps.iter().enumerate() {
        if !makes(rt, alloc, shard, pass, *step)? {
            return Ok(Some(place));
        }
    }
    Ok(None)
}

/// Whether each step is answered as it says.
pub(crate) fn all_hold<R: Wait>(
    rt: &R,
    alloc: Global,
    shard: &Shard<MemoryDisk>,
    pass: &mut Pass,
    steps: &[Step],
) -> Result<bool, NoAnswer>
    requires { IsAtHand shard.now pass.old }
    ensures { IsAtHand shard.now pass.new }
{
    Ok(first_wrong(rt, alloc, shard, pass, steps)?.is_none())
}

/// Makes the calls of a case by the first pass of a new shard.
pub(crate) fn run<R: Wait + Abort>(
    rt: &R,
    alloc: Global,
    case: &str,
    steps: &[Step],
) -> Result<(), Fail> {
    let TestShard {
        shard,
        mut first,
        ..
    } = open(alloc)?;
    let wrong = first_wrong(rt, alloc, &shard, &mut first, steps)?;
    assert_eq!(rt;
        wrong,
        None,
        "{case}: the place of the step that was answered otherwise"
    );
    Ok(())
}
