//! The Floor of a finish, over a pass that holds the device.
ghost use Rattle.std.specs.Prelude.{◌≡◌, ◌+◌, ◌^◌, ◌<◌, ◌≤◌, [], ◌∷◌, false, IfOk, OnErr};
ghost use Rattle.gor_model.specs.declared.event.Call.TheVariants as call;
ghost use Rattle.gor_model.specs.declared.event.Change.TheVariants as change;
ghost use Rattle.gor_model.specs.Shares.{JournalShare, Nothing};
ghost use Rattle.gor_model.specs.SharesAfter.{directory_raised, journal_with};
ghost use Rattle.gor_model.specs.Windows.{last_window, window_end};
ghost use Rattle.gor_dir.specs.Listings.{shown};
ghost use Rattle.gor_journal.specs.Stands.{Stands};
ghost use Rattle.gor_hall.specs.Halls.{IsPassOf};
ghost use Rattle.gor_hall.specs.Passes.{view, held, lane_of, left_of_pass};
ghost use Rattle.gor_steps.specs.Finishes.{HasWide, KeepsDevice, FloorTold, FloorsDevice, RaisesIfFloor, IsQuietFloor, device_of, floor_reply};
ghost use Rattle.gor_steps.specs.declared.floors.FloorAnswer.TheVariants as floor_;
ghost use Rattle.gor_steps.specs.Points.{Makes, MakesNone};
ghost use Rattle.gor_steps.specs.Views.{IsSound};

use crate::kinds::Parts;
use crate::wide::{Wide, give_wide, take_wide};
use gor_hall::{Hall, Pass};
use gor_journal::Entry;
use gor_model::windows::end_of;
use gor_rule::Says;
use std::alloc::AllocError;
use std::sync::Wait;

/// What a Floor is answered.
#[derive(Clone, Copy, Debug, PartialEq, Eq)]
pub enum FloorAnswer {
    /// The shard's floor has risen to the end of the window.
    Floor { floor: u64 },
    /// The shard's floor was there already, or above.
    Sealed { floor: u64 },
    /// The shard takes no more changes.
    Stopped,
}

/// The event of a Floor: its number, which is the count of events before it, and its answer.
#[derive(Clone, Copy, Debug, PartialEq, Eq)]
pub struct FloorReply {
    /// The event's number.
    pub number: u64,
    /// The answer by the events before it.
    pub answer: FloorAnswer,
}

// The event of a Floor.
#[derive(Drop)]
struct Floored {
    lane: u32,
    window: u32,
    answer: FloorAnswer,
}

impl Says for Floored {
    ghost use Rattle.gor_steps.specs.Finishes.{floor_event};

    ghost event = { λ e. floor_event e.lane e.window e.answer };
}

// What a Floor of a window is answered.
fn floor_answer(wide: &Wide, window: u32) -> FloorAnswer
    ensures { FloorTold window wide.now result }
{
    if wide.journal.stopped() {
        return FloorAnswer::Stopped;
    }
    let floor = wide.directory.floor();
    let end = end_of(window);
    if end <= floor {
        return FloorAnswer::Sealed { floor };
    }
    FloorAnswer::Floor { floor: end }
}

// Makes a Floor that changes nothing, and gives the two back.
fn refuse_floor<V: Parts<K>, K>(
    shard: &Hall<V>,
    pass: &mut Pass,
    wide: Wide,
    window: u32,
    answer: FloorAnswer,
) -> FloorReply
    requires pass { IsPassOf shard.now pass.old × (0 < left_of_pass pass.old) }
    requires window { window ≤ last_window }
    requires sound { IsSound (view pass.old) }
    requires stands { HasWide (view pass.old) wide }
    requires told { FloorTold window wide answer }
    requires quiet { IsQuietFloor answer }
    ensures pass { IsPassOf shard.now pass.new × (held pass.new ≡ 0 ∷ []) × (lane_of pass.new ≡ lane_of pass.old) }
    ensures event { Makes pass.old result.number (call.Floor window) (floor_reply result.answer) pass.new }
    ensures device { FloorsDevice window result.answer (device_of (view pass.old)) (device_of (view pass.new)) }
    ensures raised { RaisesIfFloor window result.answer (view pass.new) }
{
    let floored = Floored {
        lane: pass.lane(),
        window,
        answer,
    };
    let number = shard.mark(pass, &floored);
    give_wide(shard, pass, wide);
    FloorReply { number, answer }
}

// Raises the floor in both.
fn raise_in(wide: Wide, window: u32) -> Wide
    requires window { window ≤ last_window }
    requires running { wide.journal.pending.stopped ≡ false }
    requires room { 31 ≤ wide.journal.log_room }
    requires numbers { (wide.journal.pending.next < 2 ^ 62 + 2 ^ 45) × (wide.journal.pending.buffered < 2 ^ 50) }
    ensures directory { shown result.directory ≡ directory_raised (window_end window) (shown wide.directory) }
    ensures journal { (share : JournalShare) → Stands wide.journal.pending share → Stands result.journal.pending (journal_with (change.Floor window) Nothing share) }
{
    let mut wide = wide;
    wide.directory.raise_floor(window);
    let _number = wide.journal.append_reserved(&Entry::Floor { window });
    wide
}

// Makes a Floor that raises the shard's floor, and gives the two back.
fn raise<V: Parts<K>, K>(
    shard: &Hall<V>,
    pass: &mut Pass,
    wide: Wide,
    window: u32,
    floor: u64,
) -> FloorReply
    requires pass { IsPassOf shard.now pass.old × (0 < left_of_pass pass.old) }
    requires window { window ≤ last_window }
    requires sound { IsSound (view pass.old) }
    requires stands { HasWide (view pass.old) wide }
    requires told { FloorTold window wide (floor_.Floor floor) }
    requires room { 31 ≤ wide.journal.log_room }
    ensures pass { IsPassOf shard.now pass.new × (held pass.new ≡ 0 ∷ []) × (lane_of pass.new ≡ lane_of pass.old) }
    ensures event { Makes pass.old result.number (call.Floor window) (floor_reply result.answer) pass.new }
    ensures device { FloorsDevice window result.answer (device_of (view pass.old)) (device_of (view pass.new)) }
    ensures raised { RaisesIfFloor window result.answer (view pass.new) }
{
    let answer = FloorAnswer::Floor { floor };
    let floored = Floored {
        lane: pass.lane(),
        window,
        answer,
    };
    let number = shard.mark(pass, &floored);
    let wide = raise_in(wide, window);
    give_wide(shard, pass, wide);
    FloorReply { number, answer }
}

// Makes room for a Floor that raises the shard's floor, and makes it.
fn reserve_and_raise<V: Parts<K>, K>(
    shard: &Hall<V>,
    pass: &mut Pass,
    wide: Wide,
    window: u32,
    floor: u64,
) -> Result<FloorReply, AllocError>
    requires pass { IsPassOf shard.now pass.old × (0 < left_of_pass pass.old) }
    requires window { window ≤ last_window }
    requires sound { IsSound (view pass.old) }
    requires stands { HasWide (view pass.old) wide }
    requires told { FloorTold window wide (floor_.Floor floor) }
    ensures pass { IsPassOf shard.now pass.new × (held pass.new ≡ 0 ∷ []) × (lane_of pass.new ≡ lane_of pass.old) }
    ensures event { IfOk result (λ r. Makes pass.old r.number (call.Floor window) (floor_reply r.answer) pass.new) }
    ensures device { IfOk result (λ r. FloorsDevice window r.answer (device_of (view pass.old)) (device_of (view pass.new))) }
    ensures raised { IfOk result (λ r. RaisesIfFloor window r.answer (view pass.new)) }
    ensures none { OnErr result (MakesNone pass.old pass.new) }
    ensures kept { OnErr result (KeepsDevice (view pass.old) (view pass.new)) }
{
    let mut wide = wide;
    match wide.journal.reserve(&Entry::Floor { window }) {
        Ok(()) => Ok(raise(shard, pass, wide, window, floor)),
        Err(fault) => {
            give_wide(shard, pass, wide);
            Err(fault)
        }
    }
}

/// Makes the Floor of a window, at most 596,522, by one event; the pass holds the device, and keeps it. The directory and the
/// journal are held for it, and the call waits for their locks.
///
/// `AllocError` makes no event and changes nothing. It comes only where the floor would have risen.
pub fn make_floor<V: Parts<K>, K, R: Wait>(
    rt: &R,
    shard: &Hall<V>,
    pass: &mut Pass,
    window: u32,
) -> Result<FloorReply, AllocError>
    requires pass { IsPassOf shard.now pass.old × (held pass.old ≡ 0 ∷ []) × (0 < left_of_pass pass.old) }
    requires window { window ≤ last_window }
    ensures pass { IsPassOf shard.now pass.new × (held pass.new ≡ 0 ∷ []) × (lane_of pass.new ≡ lane_of pass.old) }
    ensures event { IfOk result (λ r. Makes pass.old r.number (call.Floor window) (floor_reply r.answer) pass.new) }
    ensures device { IfOk result (λ r. FloorsDevice window r.answer (device_of (view pass.old)) (device_of (view pass.new))) }
    ensures raised { IfOk result (λ r. RaisesIfFloor window r.answer (view pass.new)) }
    ensures none { OnErr result (MakesNone pass.old pass.new) }
    ensures kept { OnErr result (KeepsDevice (view pass.old) (view pass.new)) }
{
    let wide = take_wide(rt, shard, pass);
    match floor_answer(&wide, window) {
        FloorAnswer::Floor { floor } => reserve_and_raise(shard, pass, wide, window, floor),
        FloorAnswer::Sealed { floor } => {
            let answer = FloorAnswer::Sealed { floor };
            Ok(refuse_floor(shard, pass, wide, window, answer))
        }
        FloorAnswer::Stopped => Ok(refuse_floor(shard, pass, wide, window, FloorAnswer::Stopped)),
    }
}
