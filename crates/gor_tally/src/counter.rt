//! The tally that counts points.

ghost use Rattle.std.specs.Prelude.{◌≡◌, ◌+◌, ◌-◌, ◌^◌, min, [], ◌∷◌};
ghost use Rattle.gor_tally.specs.declared.rule.Rule.TheVariants.{Count};
ghost use Rattle.gor_tally.specs.Tallies.{Meaning};

use crate::tally::Tally;
use gor_model::{Bytes, Points};
use gor_text::write_number;
use std::alloc::{AllocError, Global};
use std::marker::Model;

/// How many points there were, at most 2^64 - 1. Contracts see the count.
#[derive(Drop)]
pub struct Counter {
    count: u64,
}

impl Model for Counter {
    ghost use Rattle.std.specs.Prelude.{ℕ, ◌<◌, ◌^◌};

    ghost Value = { ℕ };

    ghost view = { λ c. c.count };

    ghost invariant = { λ c. c.count < 2 ^ 64 };
}

impl Counter {
    /// No points. It takes no memory.
    pub fn new() -> Counter
        ensures { result ≡ 0 }
    {
        Counter { count: 0 }
    }
}

/// The count with so many points more. It stands still at its end.
fn with_more(former: u64, more: usize) -> u64
    ensures { result ≡ min (former + more) (2 ^ 64 - 1) }
{
    former.saturating_add(more as u64)
}

impl Tally for Counter {
    ghost meaning = { λ c. record { rule = Count; state = c ∷ [] } };

    fn take(&mut self, points: &Points) -> Result<(), AllocError> {
        self.count = with_more(self.count, points.len());
        Ok(())
    }

    fn close(&self, alloc: Global) -> Result<Bytes, AllocError> {
        let mut line = Vec::new(alloc);
        line.extend_from_slice(b"count ")?;
        write_number(&mut line, self.count)?;
        Ok(Bytes::from_vec(line))
    }
}
