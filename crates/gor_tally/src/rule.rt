//! The rules of tallies, as plain data.

/// By which rule a tally takes points.
#[derive(Clone, Copy, Debug, PartialEq, Eq)]
pub enum Rule {
    /// How many points there are, at most 2^64 - 1.
    Count,
    /// The least word.
    Least,
    /// The greatest word.
    Greatest,
    /// The last time and its word; of points of one time the first.
    Last,
}
