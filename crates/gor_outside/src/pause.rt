//! What is done while a read holds its series.
ghost use Rattle.std.specs.Prelude.{ℕ};

/// What is done while a read holds its series, so that a test can show what other lanes may do meanwhile.
///
/// A read of a series that is there calls it once, after its event and before it gives the series back. It returns.
pub trait Pause {
    /// What is known once it was called for a lane, with a place, after the event with a number.
    ///
    /// Generic code learns it by a call alone. The number is there for proofs: who calls says which event it is.
    ghost called: { Self → ℕ → ℕ → ℕ → Type 0 };

    /// `lane` is the lane that reads, and `place` that of the read among the lines of its lane, from 0.
    fn at(&self, lane: u32, place: u32)
        ghost number: { ℕ }
        ensures called { called self.now lane place number };
}

/// No pause.
#[derive(Clone, Copy)]
pub struct NoPause;

impl Pause for NoPause {
    ghost use Rattle.std.specs.Prelude.{⊤};

    ghost called = { λ _ _ _ _. ⊤ };

    fn at(&self, lane: u32, place: u32) {
        let _ = (lane, place);
    }
}
