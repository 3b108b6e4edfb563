//! Where bytes are read from.
ghost use Rattle.std.specs.Prelude.{◌≡◌, ◌+◌, ◌≤◌, ◌<◌, ◌^◌, List, Option, Some, ℕ, length, take, drop, min, OnErr, OnOk, IfOk, Contains};
ghost use Rattle.std.specs.Io.{ReadsAtMost};
ghost use Rattle.std.specs.Io.KnownBytes.{ReadConsumes};
ghost use Rattle.gor_outside.specs.Causes.{HasCause};

/// A read of a source or a write to a sink failed. Its count of faults rose.
#[derive(Clone, Copy, Debug, PartialEq, Eq)]
pub struct Failed;

/// Bytes that are read from the front, a piece a call.
pub trait Source {
    /// The bytes that are left, where they are told.
    ghost left: { Self → Option (List ℕ) };

    /// How often a read has failed, at most 2^64 - 1. It never falls.
    ghost faults: { Self → ℕ };

    /// How often it was read, as far as it counts: a read adds one at most.
    ghost reads: { Self → ℕ };

    /// Puts the next bytes in front of `buf` and gives their count; 0 for a `buf` that is not empty is the end.
    ///
    /// `Failed` comes only where the count of faults rose, and no byte was taken then. An `Ok` leaves the count.
    fn read(&mut self, buf: &mut [u8]) -> Result<usize, Failed>
        ensures bound { ReadsAtMost result buf.new }
        ensures bytes { ReadConsumes (left self.old) (left self.new) result buf.new }
        ensures turn { reads self.new ≤ reads self.old + 1 }
        ensures cause { HasCause (faults self.old) (faults self.new) result };

    /// The count of faults fits 64 bits.
    ghost faults_fit: { (source : Self) → faults source < 2 ^ 64 };
}

/// A source that gives the bytes that it was made of, a few a call, and fails where it was told to.
#[derive(Drop)]
pub struct MemorySource {
    bytes: Vec<u8>,
    at: usize,
    piece: usize,
    failing: Vec<u64>,
    calls: u64,
    faults: u64,
    ghost within: { at ≤ length bytes.items },
    ghost some: { 1 ≤ piece },
    ghost in_range: { faults < 2 ^ 64 },
}

impl MemorySource {
    /// Gives `bytes`, at most `piece` of them a call, and fails the calls whose places, from 0, are in `failing`.
    /// It takes no memory.
    pub fn new(bytes: Vec<u8>, piece: usize, failing: Vec<u64>) -> MemorySource
        requires { 1 ≤ piece }
        ensures left { ⟦<MemorySource as Source>⟧.left result ≡ Some bytes.items }
        ensures faults { ⟦<MemorySource as Source>⟧.faults result ≡ 0 }
        ensures reads { ⟦<MemorySource as Source>⟧.reads result ≡ 0 }
        ensures failing { result.failing.items ≡ failing.items }
    {
        MemorySource {
            bytes,
            at: 0,
            piece,
            failing,
            calls: 0,
            faults: 0,
        }
    }

    /// How often it was read; it stands still at 2^64 - 1.
    pub fn calls(&self) -> u64
        ensures { result ≡ ⟦<MemorySource as Source>⟧.reads self.now }
    {
        self.calls
    }
}

/// Copies the front of `from` to the front of `into`, at most `most` bytes, and says how many.
fn give(from: &[u8], most: usize, into: &mut [u8]) -> usize
    ensures bound { result ≤ length from.now }
    ensures room { result ≤ length into.new }
    ensures most { result ≤ most }
    ensures bytes { take result into.new ≡ take result from.now }
    ensures all { result ≡ min most (min (length from.now) (length into.new)) }
{
    let count = most.min(from.len()).min(into.len());
    into[..count].copy_from_slice(&from[..count]);
    count
}

impl Source for MemorySource {
    ghost use Rattle.std.specs.Prelude.{◌+◌, ◌≤◌, min, length, drop, Some, IfOk, OnErr, OnOk, Contains};
    ghost use Rattle.std.specs.Io.{ReadsAtMost};
    ghost use Rattle.std.specs.Io.KnownBytes.{ReadConsumes};
    ghost use Rattle.gor_outside.specs.Causes.{HasCause};

    ghost left = { λ s. Some (drop s.at s.bytes.items) };

    ghost faults = { λ s. s.faults };

    ghost reads = { λ s. s.calls };

    ghost faults_fit = { λ s. s.in_range };

    fn read(&mut self, buf: &mut [u8]) -> Result<usize, Failed>
        ensures bound { ReadsAtMost result buf.new }
        ensures bytes { ReadConsumes (Some (drop self.old.at self.old.bytes.items)) (Some (drop self.new.at self.new.bytes.items)) result buf.new }
        ensures turn { self.new.calls ≤ self.old.calls + 1 }
        ensures cause { HasCause self.old.faults self.new.faults result }

        // It fails just where it was told to, and gives no more than a piece.
        ensures planned { OnErr result (Contains self.old.failing.items self.old.calls) }
        ensures unplanned { OnOk result (¬ (Contains self.old.failing.items self.old.calls)) }
        ensures piece { IfOk result (λ n. n ≤ self.old.piece) }
    {
        let fails = self.failing.contains(&self.calls);
        self.calls = self.calls.saturating_add(1);
        if fails {
            self.faults = self.faults.saturating_add(1);
            return Err(Failed);
        }
        let count = give(&self.bytes[self.at..], self.piece, buf);
        self.at += count;
        Ok(count)
    }
}
