//! The trait of tallies.

ghost use Rattle.std.specs.Prelude.{◌≡◌, OnOk, OnErr, IfOk};
ghost use Rattle.gor_tally.specs.Tallies.{Meaning, stepped, text};

use gor_model::{Bytes, Points};
use std::alloc::{AllocError, Global};

/// What some points come to by a rule. Contracts see the rule, which stays, and the state so far, a list of numbers.
pub trait Tally: Drop {
    /// The rule and the state.
    ghost meaning: { Self → Meaning };

    /// Takes these points. Where memory is wanting it took none of them.
    fn take(&mut self, points: &Points) -> Result<(), AllocError>
        ensures ok { OnOk result (meaning self.new ≡ stepped points.now (meaning self.old)) }
        ensures err { OnErr result (meaning self.new ≡ meaning self.old) };

    /// The text of the state: `count N`, `least WORD`, `greatest WORD` or `last TIME:WORD`, with `none` for an empty state.
    /// It changes nothing.
    fn close(&self, alloc: Global) -> Result<Bytes, AllocError>
        ensures { IfOk result (λ line. line ≡ text (meaning self.now).rule (meaning self.now).state) };
}
