//! Where bytes are written.
ghost use Rattle.std.specs.Prelude.{◌≡◌, ◌+◌, ◌^◌, ◌≤◌, ◌<◌, List, Option, Some, ℕ, length, take, min, OnErr, OnOk, IfOk, Contains, [], ◌++◌};
ghost use Rattle.std.specs.Io.{WritesAtMost};
ghost use Rattle.std.specs.Io.KnownBytes.{WriteAppends};
ghost use Rattle.gor_outside.specs.Causes.{HasCause};

use crate::Failed;
use std::alloc::{AllocError, Global};

/// Where bytes are written, a piece a call.
pub trait Sink {
    /// The bytes that it holds, where they are told.
    ghost held: { Self → Option (List ℕ) };

    /// How often a write has failed, at most 2^64 - 1. It never falls.
    ghost faults: { Self → ℕ };

    /// Takes a front of the piece and says how long it is. Of a piece that is not empty it takes at least one byte.
    ///
    /// `Failed` comes only where the count of faults rose, and nothing was taken then. An `Ok` leaves the count.
    fn write(&mut self, piece: &[u8]) -> Result<usize, Failed>
        ensures bound { WritesAtMost result piece.now }
        ensures some { 0 < length piece.now → IfOk result (λ n. 0 < n) }
        ensures bytes { WriteAppends (held self.old) (held self.new) result piece.now }
        ensures cause { HasCause (faults self.old) (faults self.new) result };

    /// The count of faults fits 64 bits.
    ghost faults_fit: { (sink : Self) → faults sink < 2 ^ 64 };
}

/// A sink that keeps what it is given, takes a few bytes a call, and fails where it was told to or cannot grow.
#[derive(Drop)]
pub struct MemorySink {
    held: Vec<u8>,
    piece: usize,
    failing: Vec<u64>,
    calls: u64,
    faults: u64,
    ghost some: { 1 ≤ piece },
    ghost in_range: { faults < 2 ^ 64 },
}

impl MemorySink {
    /// Holds nothing, takes at most `piece` bytes a call, and fails the calls whose places, from 0, are in `failing`.
    /// It takes no memory.
    pub fn new(alloc: Global, piece: usize, failing: Vec<u64>) -> MemorySink
        requires { 1 ≤ piece }
        ensures held { ⟦<MemorySink as Sink>⟧.held result ≡ Some [] }
        ensures faults { ⟦<MemorySink as Sink>⟧.faults result ≡ 0 }
    {
        MemorySink {
            held: Vec::new(alloc),
            piece,
            failing,
            calls: 0,
            faults: 0,
        }
    }

    /// What it holds.
    pub fn bytes(&self) -> &[u8]
        ensures { ⟦<MemorySink as Sink>⟧.held self.now ≡ Some result.now }
    {
        &self.held
    }
}

/// Adds the front of a piece, at most `most` bytes of it.
fn add(held: &mut Vec<u8>, piece: &[u8], most: usize) -> Result<usize, AllocError>
    ensures ok { IfOk result (λ n. (n ≡ min most (length piece.now)) × (held.new.items ≡ held.old.items ++ take n piece.now)) }
    ensures err { OnErr result (held.new.items ≡ held.old.items) }
{
    let count = most.min(piece.len());
    held.extend_from_slice(&piece[..count])?;
    Ok(count)
}

impl Sink for MemorySink {
    ghost held = { λ s. Some s.held.items };

    ghost faults = { λ s. s.faults };

    ghost faults_fit = { λ s. s.in_range };

    fn write(&mut self, piece: &[u8]) -> Result<usize, Failed>
        ensures bound { WritesAtMost result piece.now }
        ensures some { 0 < length piece.now → IfOk result (λ n. 0 < n) }
        ensures bytes { WriteAppends (Some self.old.held.items) (Some self.new.held.items) result piece.now }
        ensures cause { HasCause self.old.faults self.new.faults result }

        // It fails where it was told to, and takes no more than a piece.
        ensures unplanned { OnOk result (¬ (Contains self.old.failing.items self.old.calls)) }
        ensures piece { IfOk result (λ n. n ≤ self.old.piece) }
    {
        let fails = self.failing.contains(&self.calls);
        self.calls = self.calls.saturating_add(1);
        if !fails && let Ok(count) = add(&mut self.held, piece, self.piece) {
            return Ok(count);
        }
        self.faults = self.faults.saturating_add(1);
        Err(Failed)
    }
}
