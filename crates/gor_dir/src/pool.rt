//! The free slots of a directory.
ghost use Rattle.std.specs.Prelude.{◌≡◌, ◌≤◌, ◌<◌, ◌∷◌, length, filter, nat_eq, slice_get, slice_index, IfOk, IfSome, IfNone};
ghost use Rattle.std.specs.List.{IsDistinct, range_with_len};
ghost use Rattle.gor_dir.specs.Pools.{is_apart};

use std::alloc::{AllocError, Global};
use std::marker::Model;

/// The free slots, in the order in which they are handed out. Room for all of them is made at once.
#[derive(Drop)]
pub(crate) struct Pool {
    // The next slot stands last, so that handing out and taking back are constant work.
    slots: Vec<u32>,
}

impl Model for Pool {
    ghost use Rattle.std.specs.Prelude.{reverse, vec_capacity};
    ghost use Rattle.gor_dir.specs.Pools.{FreeSlots};

    ghost Value = { FreeSlots };

    ghost view = { λ pool. record { free = reverse pool.slots.items; capacity = vec_capacity pool.slots } };
}

impl Pool {
    /// All slots below a count, rising.
    pub(crate) fn new(alloc: Global, slots: u32) -> Result<Pool, AllocError>
        ensures free { IfOk result (λ pool. pool.free ≡ range_with_len 0 slots) }
        ensures room { IfOk result (λ pool. slots ≤ pool.capacity) }
    {
        let mut pool = Pool {
            slots: Vec::with_capacity(alloc, slots as usize)?,
        };
        for slot in (0..slots).rev() {
            pool.slots.push(slot)?;
        }
        Ok(pool)
    }

    /// The slot that is next; None exactly where none is free.
    pub(crate) fn first(&self) -> Option<u32>
        ensures { result ≡ slice_get self.now.free 0 }
    {
        self.slots.last().copied()
    }

    /// Hands out the slot that is next.
    pub(crate) fn take(&mut self) -> u32
        requires { 1 ≤ length self.old.free }
        ensures free { self.old.free ≡ result ∷ self.new.free }
        ensures room { self.new.capacity ≡ self.old.capacity }
    {
        self.slots.pop().unwrap()
    }

    /// Takes a slot back, which is then next.
    pub(crate) fn put(&mut self, slot: u32)
        requires { length self.old.free < self.old.capacity }
        ensures free { self.new.free ≡ slot ∷ self.old.free }
        ensures room { self.old.capacity ≤ self.new.capacity }
    {
        self.slots.push(slot).unwrap();
    }

    /// Takes a free slot out, wherever it stands. Its work is the count of the free slots that come before it.
    pub(crate) fn remove(&mut self, slot: u32)
        requires apart { IsDistinct nat_eq self.old.free }
        ensures free { self.new.free ≡ filter (is_apart slot) self.old.free }
        ensures room { self.new.capacity ≡ self.old.capacity }
    {
        if let Some(at) = place_of(&self.slots, slot) {
            let _slot = self.slots.remove(at);
        }
    }
}

/// Where a slot stands, sought from the end.
fn place_of(slots: &[u32], slot: u32) -> Option<usize>
    ensures found { IfSome result (λ at. (at < length slots.now) × (slice_index slots.now at ≡ slot)) }
    ensures none { IfNone result (filter (is_apart slot) slots.now ≡ slots.now) }
{
    for at in (0..slots.len()).rev() {
        if slots[at] == slot {
            return Some(at);
        }
    }
    None
}
