//! Why no time stands at a place.
use thiserror::Error;

/// Why no time stands at a place. `at` is the place of the code's first bit.
///
/// Where several hold, the first of them is the answer.
#[derive(Debug, Drop, Clone, Copy, PartialEq, Eq, Error)]
pub enum TimeFault {
    /// The bits end before the code is whole.
    #[error("the time code at bit {at} is cut short")]
    Short {
        /// The code's first bit.
        at: usize,
    },
    /// A longer code than needed.
    #[error("the time code at bit {at} is longer than needed")]
    Spelling {
        /// The code's first bit.
        at: usize,
    },
    /// The time does not rise, or leaves the window.
    #[error("the time at bit {at} is out of order")]
    Order {
        /// The code's first bit.
        at: usize,
    },
}
