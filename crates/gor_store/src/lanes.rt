//! One lane of a phase: it waits until all events before the phase are seen, and then answers its lines in order.
ghost use Rattle.std.specs.Prelude.{◌≡◌, ◌+◌, ◌*◌, ◌≤◌, [], length, OnOk, OnErr};
ghost use Rattle.gor_hall.specs.Passes.{seen, left_of_pass};
ghost use Rattle.gor_store.specs.Lines.{IsResting, RestsAgain, HasRun};
ghost use Rattle.gor_store.specs.LineParts.{RanUntil};
ghost use Rattle.gor_store.specs.Lanes.{AreTaken, needs, ServesAll, RunsLane, MadeFrom};

use crate::lines::serve_line;
use gor_disk::Disk;
use gor_hall::Pass;
use gor_outside::Pause;
use gor_point::Shard;
use gor_text::{LaneAnswer, Line};
use std::alloc::{AllocError, Global};
use std::sync::Wait;
use std::thread;

/// Looks until the pass has seen so many events.
pub(crate) fn wait_for<D: Disk, R: Wait>(rt: &R, shard: &Shard<D>, pass: &mut Pass, events: u64)
    requires rests { IsResting shard.now pass.old }
    ensures rests { RestsAgain shard.now 0 pass.old pass.new }
    ensures none { HasRun pass.old pass.new [] }
    ensures long { events ≤ length (seen pass.new) }
{
    for _ in rt.forever() {
        if shard.look(pass) >= events {
            return;
        }
        thread::yield_now();
    }
    unreachable!()
}

/// Answers the lines in order, and tells what they brought about behind the answers before them.
fn serve_all<D: Disk, P: Pause, R: Wait>(
    rt: &R,
    alloc: Global,
    shard: &Shard<D>,
    pass: &mut Pass,
    lines: &[Line],
    pause: &P,
    answers: &mut Vec<LaneAnswer>,
) -> Result<(), AllocError>
    requires taken { AreTaken lines.now }
    requires rests { IsResting shard.now pass.old }
    requires left { needs lines.now ≤ left_of_pass pass.old }
    ensures rests { RestsAgain shard.now (3 * length lines.now) pass.old pass.new }
    ensures served { OnOk result (ServesAll lines.now pass.old pass.new answers.old.items answers.new.items) }
    ensures err { OnErr result (RanUntil lines.now pass.old pass.new) }
{
    let mut place: u32 = 0;
    for line in lines {
        serve_line(rt, alloc, shard, pass, line, pause, place, answers)?;
        place += 1;
    }
    Ok(())
}

/// Runs the lines of a lane in a phase, before which so many events were made: the lane waits until it has seen them, so that
/// each of its events has a number that is at least their count. The answers were empty before.
///
/// Where memory is wanting, the events that were made stand: those of the first lines, each answered whole, and of a first part of
/// the acts that may answer the next. Their numbers too are at least this.
pub fn run_lane<D: Disk, P: Pause, R: Wait>(
    rt: &R,
    alloc: Global,
    shard: &Shard<D>,
    pass: &mut Pass,
    lines: &[Line],
    before: u64,
    pause: &P,
    answers: &mut Vec<LaneAnswer>,
) -> Result<(), AllocError>
    requires taken { AreTaken lines.now }
    requires rests { IsResting shard.now pass.old }
    requires left { needs lines.now ≤ left_of_pass pass.old }
    requires empty { answers.old.items ≡ [] }
    ensures rests { RestsAgain shard.now (3 * length lines.now) pass.old pass.new }
    ensures runs { OnOk result (RunsLane lines.now before pass.old pass.new answers.new.items) }
    ensures err { OnErr result (MadeFrom lines.now before pass.old pass.new) }
{
    wait_for(rt, shard, pass, before);
    serve_all(rt, alloc, shard, pass, lines, pause, answers)
}
