//! The part of a word that a code stores.
ghost use Rattle.std.specs.Prelude.{◌≡◌, ℕ, ◌+◌, ◌-◌, ◌*◌, ◌/◌, ◌^◌, ◌<◌, ◌≤◌, ◌++◌, Some, length, IsTrue};

/// Behind so many bits of a word, so many bits of it.
#[derive(Clone, Copy)]
pub struct Window {
    pub lead: u32,
    pub len: u32,
    ghost some: { 1 ≤ len },
    ghost inside: { lead + len ≤ 64 },
}

impl Window {
    ghost use Rattle.gor_bits.specs.Spelled.{spelled};
    ghost use Rattle.gor_bits.specs.BitString.{BitString};
    ghost use Rattle.gor_model.specs.Codes.{ValueWindow, window_for, fits, stored_bits};

    /// The window that a changed word stores.
    pub fn of(x: u64) -> Window
        requires { 0 < x }
        ensures lead { result.lead ≡ (window_for x).lead }
        ensures len { result.len ≡ (window_for x).len }
        ensures fits { x / 2 ^ (64 - result.lead - result.len) < 2 ^ result.len }
        ensures few { result.lead ≤ 31 }
    {
        let lead = x.leading_zeros().min(31);
        Window {
            lead,
            len: 64 - lead - x.trailing_zeros(),
        }
    }

    /// Whether a changed word fits.
    pub fn holds(self, x: u64) -> bool
        ensures value { result ≡ fits x (Some (record { lead = self.lead; len = self.len })) }
        ensures fits { IsTrue result → x / 2 ^ (64 - self.lead - self.len) < 2 ^ self.len }
    {
        self.lead <= x.leading_zeros() && 64 - self.lead - self.len <= x.trailing_zeros()
    }
}
