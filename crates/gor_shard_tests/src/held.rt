//! A get that waits for nobody, while another pass holds the directory.
ghost use Rattle.gor_shard_tests.specs.Passes.{IsAtHand};

use crate::shard::{NoAnswer, TestShard, has_events, named, open};
use gor_disk::MemoryDisk;
use gor_hall::Pass;
use gor_name::Name;
use gor_point::{GetAnswer, Shard, TryFault, try_get};
use std::sync::Wait;
use std::test::Fail;

// Reads the times up to 99: whether the directory is told as held.
fn is_busy(shard: &Shard<MemoryDisk>, pass: &mut Pass, name: &Name) -> Result<bool, NoAnswer>
    requires { IsAtHand shard.now pass.old }
    ensures { IsAtHand shard.now pass.new }
{
    has_events(pass)?;
    let read = try_get(shard, pass, name, 0, 99);
    Ok(matches!(read, Err(TryFault::Busy { object: 1 })))
}

// Whether the first event answers that no series has the name.
fn is_absent(shard: &Shard<MemoryDisk>, pass: &mut Pass, name: &Name) -> Result<bool, NoAnswer>
    requires { IsAtHand shard.now pass.old }
    ensures { IsAtHand shard.now pass.new }
{
    has_events(pass)?;
    match try_get(shard, pass, name, 0, 99) {
        Ok(reply) => Ok(reply.number == 0 && matches!(reply.answer, GetAnswer::Absent)),
        Err(_) => Err(NoAnswer),
    }
}

// Whether a get is refused while another pass holds the directory, and answered once it was given back.
fn waits_for_nobody<R: Wait>(
    rt: &R,
    shard: &Shard<MemoryDisk>,
    holder: &mut Pass,
    other: &mut Pass,
    name: &Name,
) -> Result<bool, NoAnswer>
    requires holder { IsAtHand shard.now holder.old }
    requires other { IsAtHand shard.now other.old }
{
    let directory = shard.take(rt, holder, 1);
    let busy = is_busy(shard, other, name)?;
    shard.give(holder, 1, directory);
    let absent = is_absent(shard, other, name)?;
    Ok(busy && absent)
}

#[test]
fn a_held_directory_is_busy(rt: HostRuntime) -> Result<(), Fail> {
    let TestShard {
        shard,
        mut first,
        mut second,
    } = open(rt.alloc())?;
    let a = named(rt.alloc(), "a")?;
    assert!(rt; waits_for_nobody(&rt, &shard, &mut first, &mut second, &a)?);
    Ok(())
}
