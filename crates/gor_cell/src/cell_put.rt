//! What a put is answered by a series.
/// What a put is answered: the first that holds.
#[derive(Clone, Copy, Debug, PartialEq, Eq)]
pub enum CellPut {
    /// The point is the last of the series now.
    Stored,
    /// The last kept point has this time, and it is not before the put's.
    NotLater {
        /// That time, in the store's unit.
        last: u64,
    },
    /// The time is below the series' floor.
    Closed {
        /// The floor, in the store's unit.
        floor: u64,
    },
}
