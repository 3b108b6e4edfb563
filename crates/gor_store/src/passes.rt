//! The nine passes of a store, as they come from an opening, as they are counted, and as they go into a close.
ghost use Rattle.std.specs.Prelude.{◌≡◌, ℕ, ◌+◌, ◌≤◌, [], length, slice_get, Some, sum_by, vec_capacity};
ghost use Rattle.gor_hall.specs.Passes.{made};
ghost use Rattle.gor_hall.specs.declared.pass.Pass.{Pass as AnyPass};
ghost use Rattle.gor_store.specs.Stores.{passes_with, HasCount};

use crate::phases::Lane;
use gor_hall::Pass;
use std::alloc::Global;

/// Makes lanes of the first eight passes, in order, and gives the last one.
pub(crate) fn into_lanes(alloc: Global, mut passes: Vec<Pass>, lanes: &mut Vec<Lane>) -> Pass
    requires count { length passes.items ≡ 9 }
    requires empty { lanes.old.items ≡ [] }
    requires room { 8 ≤ vec_capacity lanes.old }
    ensures { passes_with lanes.new.items result ≡ passes.items }
{
    let Some(closing) = passes.pop() else {
        unreachable!();
    };
    for pass in passes {
        lanes.push_reserved(Lane::new(alloc, pass));
    }
    closing
}

/// Gives the passes in the order of their lanes. It takes no memory.
pub(crate) fn into_passes(lanes: Vec<Lane>, closing: Pass, mut room: Vec<Pass>) -> Vec<Pass>
    requires count { length lanes.items ≡ 8 }
    requires empty { room.items ≡ [] }
    requires room { 9 ≤ vec_capacity room }
    ensures { result.items ≡ passes_with lanes.items closing }
{
    for lane in lanes {
        let Lane { pass, .. } = lane;
        room.push_reserved(pass);
    }
    room.push_reserved(closing);
    room
}

/// How many events a pass made.
fn events_by(pass: &Pass) -> u64
    requires { HasCount pass.now }
    ensures { result ≡ length (made pass.now) }
{
    (1 << 40) - pass.left()
}

/// How many events the passes made.
pub(crate) fn count_events(lanes: &[Lane], closing: &Pass) -> u64
    requires few { length lanes.now ≤ 8 }
    requires each { (k : ℕ) (p : AnyPass) → slice_get (passes_with lanes.now closing.now) k ≡ Some p → HasCount p }
    ensures { result ≡ sum_by (λ p. length (made p)) (passes_with lanes.now closing.now) }
{
    let mut events = 0;
    for lane in lanes {
        events += events_by(&lane.pass);
    }
    events + events_by(closing)
}
