//! Why bytes are no block.
ghost use Rattle.std.specs.Prelude.{◌≡◌};
ghost use Rattle.gor_block.specs.declared.fault.BlockFault.TheVariants.{NoMemory};
ghost use Rattle.gor_block.specs.Marks.{of_time, of_word};

use gor_times::TimeFault;
use gor_values::ValueFault;
use std::alloc::AllocError;
use thiserror::Error;

/// Why bytes are no block. `at` is a bit of the block's bits, from 0 behind the window and the count.
///
/// Besides `NoMemory` the first of these that holds is the answer.
#[derive(Debug, Drop, Clone, Copy, PartialEq, Eq, Error)]
pub enum BlockFault {
    /// There are fewer than eight bytes, and `at` is 0; or the bits end within the code that begins at `at`.
    #[error("the block ends within what begins at bit {at}")]
    Short {
        /// The code's first bit.
        at: usize,
    },
    /// The window is above the last one.
    #[error("there is no window {window}")]
    Window {
        /// The window that stands there.
        window: u32,
    },
    /// There is no point, or there are more than a window has times.
    #[error("no block has {count} points")]
    Count {
        /// The count that stands there.
        count: u32,
    },
    /// A whole code stands there, but it is no time's, or no word's, own one.
    #[error("what begins at bit {at} is no code")]
    Spelling {
        /// The code's first bit.
        at: usize,
    },
    /// The time does not rise, or leaves the window.
    #[error("the time at bit {at} is out of order")]
    Order {
        /// The code's first bit.
        at: usize,
    },
    /// Eight bits or more are left behind the last code, and `at` is the first of them; or `at` is the first of those left
    /// that is set.
    #[error("bit {at} is no padding")]
    Padding {
        /// The first bit that may not stand there.
        at: usize,
    },
    /// Memory is wanting.
    #[error("out of memory")]
    NoMemory,
}

impl From<TimeFault> for BlockFault {
    ghost from_gives = { λ fault given. given ≡ of_time fault };

    fn from(fault: TimeFault) -> BlockFault {
        match fault {
            TimeFault::Short { at } => BlockFault::Short { at },
            TimeFault::Spelling { at } => BlockFault::Spelling { at },
            TimeFault::Order { at } => BlockFault::Order { at },
        }
    }
}

impl From<ValueFault> for BlockFault {
    ghost from_gives = { λ fault given. given ≡ of_word fault };

    fn from(fault: ValueFault) -> BlockFault {
        match fault {
            ValueFault::Short { at } => BlockFault::Short { at },
            ValueFault::Spelling { at } => BlockFault::Spelling { at },
        }
    }
}

impl From<AllocError> for BlockFault {
    ghost from_gives = { λ _ given. given ≡ NoMemory };

    fn from(_: AllocError) -> BlockFault {
        BlockFault::NoMemory
    }
}
