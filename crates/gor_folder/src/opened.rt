//! An open file or folder.
use crate::identity::Identity;

/// An open file or folder, and which one it was as it was opened.
#[derive(Drop)]
pub struct Opened<F: Drop> {
    /// What is open.
    pub file: F,
    /// Which one it is.
    pub identity: Identity,
}
