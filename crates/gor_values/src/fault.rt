//! Why no word stands at a place.
use thiserror::Error;

/// Why no word stands at a place. `at` is the place of the code's first bit.
///
/// Where both hold, `Short` is the answer.
#[derive(Debug, Drop, Clone, Copy, PartialEq, Eq, Error)]
pub enum ValueFault {
    /// The bits end before the code is whole.
    #[error("the word code at bit {at} is cut short")]
    Short {
        /// The code's first bit.
        at: usize,
    },
    /// No code of a word under the value window.
    #[error("the word code at bit {at} is no code")]
    Spelling {
        /// The code's first bit.
        at: usize,
    },
}
