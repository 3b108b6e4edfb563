//! The pause of a read.
ghost use Rattle.std.specs.Prelude.{◌≡◌, ◌+◌};
ghost use Rattle.gor_model.specs.Objects.{Has};
ghost use Rattle.gor_hall.specs.Calls.{MayPause};
ghost use Rattle.gor_hall.specs.Halls.{IsPassOf};
ghost use Rattle.gor_hall.specs.Passes.{view, held, lane_of, left_of_pass, paused};
ghost use Rattle.gor_steps.specs.Pauses.{EndsWith, Pauses};

use crate::kinds::Parts;
use gor_hall::{Hall, Pass, Permit};
use gor_outside::Pause;

// Calls a pause, and uses up the permit that the pass gave for it: the pass knows now what it knew then. Nothing else calls
// a pause.
fn call<P: Pause>(pause: &P, lane: u32, place: u32, pass: &Pass, permit: Permit, number: u64)
    requires knows { paused pass.now ≡ view pass.now }
    ensures called { P.called pause.now lane place number }
{
    let _ = (pass, permit, number);
    pause.at(lane, place);
}

/// Pauses a read that holds its series, once its event is the newest.
pub(crate) fn pause_in<V: Parts<K>, K, P: Pause>(
    shard: &Hall<V>,
    pass: &mut Pass,
    slot: u32,
    number: u64,
    pause: &P,
    place: u32,
)
    requires pass { IsPassOf shard.now pass.old × MayPause pass.old }
    requires held { Has (held pass.old) (slot + 2) }
    requires event { EndsWith (view pass.old) slot number }
    ensures pass { IsPassOf shard.now pass.new × (lane_of pass.new ≡ lane_of pass.old) × (left_of_pass pass.new ≡ left_of_pass pass.old) }
    ensures same { view pass.new ≡ view pass.old }
    ensures paused { Pauses (P.called pause.now (lane_of pass.old) place) pass.old pass.new number }
{
    let permit = shard.allow_pause(pass);
    let lane = permit.lane();
    call(pause, lane, place, pass, permit, number);
    let _ = slot;
}
