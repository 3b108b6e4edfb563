//! The unit of times.
ghost use Rattle.std.specs.Prelude.{◌≡◌};
ghost use Rattle.gor_model.specs.Windows.{per, store_unit};

/// What a time counts since 1970-01-01 00:00:00 UTC: seconds or milliseconds.
///
/// Windows are two hours and retention is a day in either unit; the codes of times are the same, but for the width of a
/// block's first time.
#[derive(Clone, Copy, Debug, PartialEq, Eq)]
pub enum Unit {
    /// A time counts seconds.
    Second,
    /// A time counts milliseconds.
    Milli,
}

impl Unit {
    /// How many of these units make one second: 1 or 1,000.
    pub fn per_second(self) -> u64
        ensures { result ≡ per self }
    {
        match self {
            Unit::Second => 1,
            Unit::Milli => 1000,
        }
    }

    /// The unit in which this store counts its times.
    pub fn of_the_store() -> Unit
        ensures { result ≡ store_unit }
    {
        Self::Second
    }
}
