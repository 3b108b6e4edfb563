//! The Seal of one series by a finish, over a pass that holds the device.
ghost use Rattle.std.specs.Prelude.{ℕ, ◌≡◌, ◌+◌, ◌^◌, ◌<◌, ◌≤◌, [], ◌∷◌, false, true, IsSome, IfSome, IfOk, IfErr, OnOk, OnErr};
ghost use Rattle.gor_model.specs.Fields.{IsNumber};
ghost use Rattle.gor_model.specs.Windows.{last_window};
ghost use Rattle.gor_hall.specs.Halls.{IsPassOf, start_of};
ghost use Rattle.gor_hall.specs.Passes.{view, held, lane_of, left_of_pass};
ghost use Rattle.gor_steps.specs.Finishes.{AreSealedBelow, HasRaised, KeepsDevice, IsSameBoth, Seals, SealsNone, SealsIfOpen, SealsIn, is_open_to};
ghost use Rattle.gor_steps.specs.Points.{MakesNone};
ghost use Rattle.gor_steps.specs.Puts.{HasBoth};
ghost use Rattle.gor_steps.specs.Views.{HasSeries, IsSound};

use crate::held::{Both, give_both};
use crate::kinds::Parts;
use crate::parts::{give_series, take_journal, take_series};
use gor_cell::{Cell, SealedBlocks};
use gor_hall::{Hall, Pass};
use gor_journal::Entry;
use gor_model::Bytes;
use gor_model::windows::end_of;
use gor_name::Name;
use gor_rule::Says;
use std::alloc::{AllocError, Global};
use std::sync::Wait;

/// The event of a Seal, and what it sealed.
#[derive(Drop)]
pub struct SealReply {
    /// The event's number, which is the count of events before it.
    pub number: u64,
    /// The spelling of the series that is shown.
    pub name: Bytes,
    /// The number of the change that began the series.
    pub uid: u64,
    /// Copies of its kept blocks.
    pub sealed: SealedBlocks,
}

// The event of a Seal.
#[derive(Drop)]
struct Sealed<'a> {
    lane: u32,
    slot: u32,
    name: &'a Bytes,
    window: u32,
}

impl Says for Sealed<'_> {
    ghost use Rattle.gor_steps.specs.Finishes.{seal_event};

    ghost event = { λ e. seal_event e.lane e.slot e.name.now e.window };
}

// A series that is sealed, with the journal that has its change.
#[derive(Drop)]
pub(crate) struct Made {
    pub(crate) both: Both,
    pub(crate) name: Bytes,
    pub(crate) uid: u64,
    pub(crate) sealed: SealedBlocks,
}

// Whether there is a series, and its floor is below the end of a window.
fn is_open(cell: &Cell, window: u32) -> bool
    ensures { result ≡ is_open_to window cell.now.live }
{
    if !cell.is_live() {
        return false;
    }
    cell.floor() < end_of(window)
}

// The bytes of a name.
fn bytes_of(alloc: Global, name: &Name) -> Result<Bytes, AllocError>
    ensures { IfOk result (λ bytes. bytes ≡ name.now) }
{
    let mut bytes = Vec::new(alloc);
    bytes.extend_from_slice(name.text().as_bytes())?;
    Ok(Bytes::from_vec(bytes))
}

// Makes the room for a seal but for the copies of its blocks, and tells whose it is.
fn reserve_seal(alloc: Global, both: &mut Both, window: u32) -> Result<(Bytes, u64), AllocError>
    requires { IsSome both.old.cell.live }
    ensures same { IsSameBoth both.old both.new }
    ensures told { IfOk result (λ r. IfSome both.old.cell.live (λ s. (r.0 ≡ s.name) × (r.1 ≡ s.uid))) }
    ensures room { OnOk result (39 ≤ both.new.journal.log_room) }
{
    let name = bytes_of(alloc, both.cell.name())?;
    let uid = both.cell.uid();
    both.journal.reserve(&Entry::Seal { uid, window })?;
    Ok((name, uid))
}

// Seals the series in both. Where memory is wanting both stand for what they did.
fn seal_in(alloc: Global, both: Both, first: u32, window: u32) -> Result<Made, Both>
    requires windows { (first ≤ window) × (window ≤ last_window) }
    requires open { is_open_to window both.cell.live ≡ true }
    requires uid { IfSome both.cell.live (λ s. IsNumber s.uid) }
    requires running { both.journal.pending.stopped ≡ false }
    requires numbers { (both.journal.pending.next < 2 ^ 62 + 2 ^ 45) × (both.journal.pending.buffered < 2 ^ 50) }
    ensures ok { IfOk result (SealsIn first window both) }
    ensures err { IfErr result (IsSameBoth both) }
{
    let mut both = both;
    let Ok((name, uid)) = reserve_seal(alloc, &mut both, window) else {
        return Err(both);
    };
    match both.cell.seal(first, window) {
        Ok(sealed) => {
            let _number = both.journal.append_reserved(&Entry::Seal { uid, window });
            Ok(Made {
                both,
                name,
                uid,
                sealed,
            })
        }
        Err(_) => Err(both),
    }
}

// Seals a series that is below the end of the window, by one event, and gives the journal and the series back.
fn seal<V: Parts<K>, K>(
    alloc: Global,
    shard: &Hall<V>,
    pass: &mut Pass,
    slot: u32,
    both: Both,
    first: u32,
    window: u32,
) -> Result<SealReply, AllocError>
    requires pass { IsPassOf shard.now pass.old × (0 < left_of_pass pass.old) × (held pass.old ≡ ((start_of shard.now).slots + 2) ∷ (slot + 2) ∷ 0 ∷ []) }
    requires slot { slot < (start_of shard.now).slots }
    requires windows { (first ≤ window) × (window ≤ last_window) }
    requires sound { IsSound (view pass.old) }
    requires raised { HasRaised window (view pass.old) }
    requires stands { HasBoth (view pass.old) slot both }
    requires open { is_open_to window both.cell.live ≡ true }
    ensures pass { IsPassOf shard.now pass.new × (held pass.new ≡ 0 ∷ []) × (lane_of pass.new ≡ lane_of pass.old) }
    ensures seals { IfOk result (Seals pass.old slot first window pass.new) }
    ensures raised { OnOk result (HasRaised window (view pass.new)) }
    ensures below { OnOk result (AreSealedBelow window slot (view pass.old) → AreSealedBelow window (slot + 1) (view pass.new)) }
    ensures none { OnErr result (MakesNone pass.old pass.new) }
    ensures kept { OnErr result (KeepsDevice (view pass.old) (view pass.new)) }
{
    match seal_in(alloc, both, first, window) {
        Ok(made) => {
            let Made {
                both,
                name,
                uid,
                sealed,
            } = made;
            let event = Sealed {
                lane: pass.lane(),
                slot,
                name: &name,
                window,
            };
            let number = shard.mark(pass, &event);
            give_both(shard, pass, slot, both);
            Ok(SealReply {
                number,
                name,
                uid,
                sealed,
            })
        }
        Err(both) => {
            give_both(shard, pass, slot, both);
            Err(AllocError)
        }
    }
}

// Looks at the whole history while a series is held that needs no seal, and gives it back.
fn pass_by<V: Parts<K>, K>(shard: &Hall<V>, pass: &mut Pass, slot: u32, cell: Cell)
    requires pass { IsPassOf shard.now pass.old × (held pass.old ≡ (slot + 2) ∷ 0 ∷ []) }
    requires slot { slot < (start_of shard.now).slots }
    requires stands { HasSeries (view pass.old) slot cell }
    ensures pass { IsPassOf shard.now pass.new × (held pass.new ≡ 0 ∷ []) × (lane_of pass.new ≡ lane_of pass.old) }
    ensures none { SealsNone pass.old pass.new }
    ensures raised { (window : ℕ) → HasRaised window (view pass.old) → HasRaised window (view pass.new) }
    ensures below { (window : ℕ) → HasRaised window (view pass.old) → is_open_to window cell.live ≡ false → AreSealedBelow window slot (view pass.old) → AreSealedBelow window (slot + 1) (view pass.new) }
{
    let _events = shard.look(pass);
    give_series(shard, pass, slot, cell);
}

/// Seals the series of a slot up to a window, at most 596,522, where it is there and its floor is below the window's end, by
/// one event; and gives copies of its kept blocks of the windows `first` to `window` that have a point. Else it makes no event.
/// The pass holds the device, and keeps it. The series is held, and for the event the journal too; the call waits for their
/// locks.
///
/// The shard's floor has reached the window's end, and the shard is not stopped. `AllocError` makes no event and changes
/// nothing.
pub fn seal_one<V: Parts<K>, K, R: Wait>(
    rt: &R,
    alloc: Global,
    shard: &Hall<V>,
    pass: &mut Pass,
    slot: u32,
    first: u32,
    window: u32,
) -> Result<Option<SealReply>, AllocError>
    requires pass { IsPassOf shard.now pass.old × (held pass.old ≡ 0 ∷ []) × (0 < left_of_pass pass.old) }
    requires slot { slot < (start_of shard.now).slots }
    requires windows { (first ≤ window) × (window ≤ last_window) }
    requires raised { HasRaised window (view pass.old) }
    ensures pass { IsPassOf shard.now pass.new × (held pass.new ≡ 0 ∷ []) × (lane_of pass.new ≡ lane_of pass.old) }
    ensures seals { IfOk result (SealsIfOpen pass.old slot first window pass.new) }
    ensures raised { OnOk result (HasRaised window (view pass.new)) }
    ensures below { OnOk result (AreSealedBelow window slot (view pass.old) → AreSealedBelow window (slot + 1) (view pass.new)) }
    ensures none { OnErr result (MakesNone pass.old pass.new) }
    ensures kept { OnErr result (KeepsDevice (view pass.old) (view pass.new)) }
{
    let cell = take_series(rt, shard, pass, slot);
    if !is_open(&cell, window) {
        pass_by(shard, pass, slot, cell);
        return Ok(None);
    }
    let journal = take_journal(rt, shard, pass);
    let both = Both { cell, journal };
    let reply = seal(alloc, shard, pass, slot, both, first, window)?;
    Ok(Some(reply))
}
