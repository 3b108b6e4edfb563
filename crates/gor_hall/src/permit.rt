//! The right to pause.

/// The right to make one pause, which its pass has counted. Whoever pauses uses it up: there is no second value of it.
#[derive(Drop)]
pub struct Permit {
    pub(crate) lane: u32,
}

impl Permit {
    ghost use Rattle.std.specs.Prelude.{◌≡◌};

    /// The number of the pass's lane, from 0.
    pub fn lane(&self) -> u32
        ensures { result ≡ self.now.lane }
    {
        self.lane
    }
}
