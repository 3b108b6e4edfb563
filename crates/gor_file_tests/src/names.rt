//! Names that the records of a test have.
use gor_name::{Name, NameFault};
use std::alloc::{AllocError, Global};

/// The name that this text is, if it is one.
pub fn name_of(alloc: Global, text: &str) -> Result<Option<Name>, AllocError> {
    match Name::read(alloc, text) {
        Ok(name) => Ok(Some(name)),
        Err(NameFault::NoMemory) => Err(AllocError),
        Err(_) => Ok(None),
    }
}
