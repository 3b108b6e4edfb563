//! Why a body or a file could not be read: its first fault, or want of memory.
ghost use Rattle.std.specs.Prelude.{◌≡◌};
ghost use Rattle.gor_fields.specs.declared.field_fault.FieldFault.TheVariants as faults;

use gor_model::{Misread, Wrong};
use std::alloc::{AllocError, AllocFailed};
use thiserror::Error;

/// Why a body or a file could not be read.
#[derive(Clone, Copy, Debug, PartialEq, Eq, Error)]
pub enum FieldFault {
    /// The first fault, and its place in the body, or in the file where that is no list of bodies, from 0.
    #[error("what stands at {at} is wrong: {kind:?}")]
    Wrong { at: u64, kind: Wrong },
    /// Memory is wanting.
    #[error("out of memory")]
    NoMemory,
}

/// The first fault, and its place.
pub fn fault(at: u64, kind: Wrong) -> FieldFault
    ensures { result ≡ faults.Wrong at kind }
{
    FieldFault::Wrong { at, kind }
}

impl From<Misread> for FieldFault {
    ghost from_gives = { λ misread given. given ≡ faults.Wrong misread.at misread.kind };

    fn from(misread: Misread) -> FieldFault {
        FieldFault::Wrong {
            at: misread.at,
            kind: misread.kind,
        }
    }
}

impl From<AllocError> for FieldFault {
    ghost from_gives = { λ _ given. given ≡ faults.NoMemory };

    fn from(_e: AllocError) -> FieldFault {
        FieldFault::NoMemory
    }
}

impl<T: Drop> From<AllocFailed<T>> for FieldFault {
    ghost from_gives = { λ _ given. given ≡ faults.NoMemory };

    fn from(_e: AllocFailed<T>) -> FieldFault {
        FieldFault::NoMemory
    }
}
