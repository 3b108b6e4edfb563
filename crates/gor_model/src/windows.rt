//! Windows of two hours and the limits of times: how long a window is, where it ends, and which window a time is in.
ghost use Rattle.std.specs.Prelude.{◌≡◌, ◌*◌, ◌<◌, ◌≤◌, ◌^◌};
ghost use Rattle.gor_model.specs.Starts.{IsFloor};
ghost use Rattle.gor_model.specs.Windows.{per, store_unit, window, window_length, window_end, end_in};

use crate::unit::Unit;

/// The last window: the last one whose end is below 2^32 seconds.
pub const LAST_WINDOW: u32 = 596_522;

/// The last time of the last window, in seconds since 1970-01-01 00:00:00 UTC.
pub const GREATEST_TIME: u64 = 4_294_965_599;

impl Unit {
    /// The times in a window: two hours of this unit.
    pub fn window_length(self) -> u64
        ensures value { result ≡ window_length self }
        ensures some { 0 < result }
        ensures few { result ≤ 7200000 }
    {
        7200 * self.per_second()
    }

    /// The first time behind a window, in this unit.
    pub fn end_of(self, window: u32) -> u64
        ensures end { result ≡ end_in self window }
        ensures limit { result < 2 ^ 60 }
    {
        (u64::from(window) + 1) * self.window_length()
    }
}

/// The window that a time of the store is in.
pub fn window_of(time: u64) -> u64
    ensures { result ≡ window time }
{
    time / Unit::of_the_store().window_length()
}

/// The first time of the store behind a window.
pub fn end_of(window: u32) -> u64
    ensures end { result ≡ window_end window }
    ensures limit { result < 2 ^ 60 }
{
    Unit::of_the_store().end_of(window)
}

/// The window that ends at a floor above 0.
pub fn window_before(floor: u64) -> u32
    requires end { IsFloor floor }
    requires some { 0 < floor }
    ensures { window_end result ≡ floor }
{
    let length = Unit::of_the_store().window_length();
    (floor / length - 1) as u32
}

/// The times of a day, in the store's unit.
pub fn day() -> u64
    ensures { result ≡ 86400 * per store_unit }
{
    86400 * Unit::of_the_store().per_second()
}
