//! The series of words that parts measure.

use std::alloc::AllocError;
use std::num::nearest_u64_to_f64;

/// A kind of series.
#[derive(Clone, Copy)]
pub enum Kind {
    /// The double 12 at each point.
    Constant,
    /// A double that rises by 1 to 16 from point to point.
    Counter,
    /// A double with two decimals that moves by at most 0.03 from point to point, from 0 to 100.
    Gauge,
    /// 64 bits with no order in them.
    Random,
}

/// Each kind, in the order in which it is printed, with what a row of its figures begins with.
pub const KINDS: [(Kind, &str); 4] = [
    (Kind::Constant, "constant words"),
    (Kind::Counter, "counter words"),
    (Kind::Gauge, "gauge words"),
    (Kind::Random, "random words"),
];

/// A series of words of one kind, the same in each run.
#[derive(Clone, Copy)]
pub struct Series {
    kind: Kind,
    level: u64,
    seed: u64,
}

/// The bits of a whole number as a double, shared out among so many.
fn double_bits(number: u64, among: f64) -> u64 {
    let value = nearest_u64_to_f64(number) / among;
    if value.is_nan() { 0 } else { value.to_bits() }
}

impl Series {
    /// The series of a kind, before its first word.
    pub fn new(kind: Kind) -> Series {
        Series {
            kind,
            level: 2000,
            seed: 1,
        }
    }

    /// The next word. What is drawn for it is a step of splitmix64.
    pub fn word(&mut self) -> u64 {
        self.seed = self.seed.wrapping_add(0x9e37_79b9_7f4a_7c15);
        let first = (self.seed ^ (self.seed >> 30)).wrapping_mul(0xbf58_476d_1ce4_e5b9);
        let second = (first ^ (first >> 27)).wrapping_mul(0x94d0_49bb_1331_11eb);
        let drawn = second ^ (second >> 31);
        match self.kind {
            Kind::Constant => double_bits(12, 1.0),
            Kind::Counter => {
                self.level = self.level.saturating_add(drawn % 16 + 1);
                double_bits(self.level, 1.0)
            }
            Kind::Gauge => {
                self.level = self
                    .level
                    .saturating_add(drawn % 7)
                    .saturating_sub(3)
                    .min(10_000);
                double_bits(self.level, 100.0)
            }
            Kind::Random => drawn,
        }
    }

    /// Puts the next words in place of those of the list, so many.
    pub fn fill(&mut self, words: &mut Vec<u64>, count: usize) -> Result<(), AllocError> {
        words.clear();
        for _ in 0..count {
            words.push(self.word())?;
        }
        Ok(())
    }
}

/// What words make together with times that are so many seconds apart, of each word the bits of a mask.
pub fn sum_of(words: &[u64], begin: u64, apart: u64, mask: u64) -> u64 {
    let mut sum = 0u64;
    let mut time = begin;
    for word in words {
        sum = sum.rotate_left(1) ^ time.wrapping_add(*word & mask);
        time = time.saturating_add(apart);
    }
    sum
}
