//! The names of a shard's files.
use gor_disk::FileId;
use std::fmt;

/// A file of a shard's store, shown by its name in a folder: `marks`, `keys.N`, `log.N` or `block.N`.
#[derive(Clone, Copy, Debug, PartialEq, Eq)]
pub struct FileName(pub FileId);

impl fmt::Display for FileName {
    fn fmt<W: fmt::Write>(&self, f: &mut fmt::Formatter<W>) -> fmt::Result {
        match self.0 {
            FileId::Marks => write!(f, "marks"),
            FileId::Keys(number) => write!(f, "keys.{number}"),
            FileId::Log(number) => write!(f, "log.{number}"),
            FileId::Block(window) => write!(f, "block.{window}"),
        }
    }
}
