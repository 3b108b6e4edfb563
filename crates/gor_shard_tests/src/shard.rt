//! A shard of two slots on an empty disk, and the passes of its two lanes.
ghost use Rattle.std.specs.Prelude.{IfOk, OnOk, ◌≤◌};
ghost use Rattle.gor_hall.specs.Passes.{left_of_pass};
ghost use Rattle.gor_shard_tests.specs.Passes.{IsAtHand};

use gor_disk::MemoryDisk;
use gor_hall::Pass;
use gor_name::Name;
use gor_point::Shard;
use gor_store::{OpenShard, open_shard};
use std::alloc::{AllocError, Global};
use std::test::Fail;
use thiserror::Error;

/// A shard of two slots on an empty disk.
#[derive(Drop)]
pub(crate) struct TestShard {
    pub(crate) shard: Shard<MemoryDisk>,
    pub(crate) first: Pass,
    pub(crate) second: Pass,
}

/// The shard with the passes of two lanes.
pub(crate) fn open(alloc: Global) -> Result<TestShard, Fail>
    ensures first { IfOk result (λ o. IsAtHand o.shard o.first) }
    ensures second { IfOk result (λ o. IsAtHand o.shard o.second) }
{
    let Ok(opened) = open_shard(alloc, MemoryDisk::new(alloc), 1, 0, 2, 2) else {
        return Err(Fail::new("a shard is opened"));
    };
    let OpenShard { hall, mut passes } = opened;
    match (passes.pop(), passes.pop()) {
        (Some(second), Some(first)) => Ok(TestShard {
            shard: hall,
            first,
            second,
        }),
        _ => Err(Fail::new("two passes")),
    }
}

/// A call had no answer.
#[derive(Clone, Copy, Debug, PartialEq, Eq, Error)]
#[error("a call has no answer")]
pub(crate) struct NoAnswer;

impl From<AllocError> for NoAnswer {
    fn from(_: AllocError) -> NoAnswer {
        NoAnswer
    }
}

/// The name of some letters.
pub(crate) fn named(alloc: Global, text: &str) -> Result<Name, NoAnswer> {
    match Name::read(alloc, text) {
        Ok(name) => Ok(name),
        Err(_) => Err(NoAnswer),
    }
}

/// A call asks for so many events that are left.
pub(crate) fn has_events(pass: &Pass) -> Result<(), NoAnswer>
    ensures { OnOk result (16388 ≤ left_of_pass pass.now) }
{
    if pass.left() < 16_388 {
        return Err(NoAnswer);
    }
    Ok(())
}
