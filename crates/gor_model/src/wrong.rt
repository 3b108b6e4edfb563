//! What is wrong with bytes that are read.
/// What is wrong with a body of a gated file, or with a block file.
#[derive(Clone, Copy, Debug, PartialEq, Eq)]
pub enum Wrong {
    /// The version is none that is known, or a block file does not begin as one.
    Version,
    /// A kind is unknown or may not stand there.
    Kind,
    /// A record, a header, a mark or a file passes its end.
    Short,
    /// Bytes follow the fields of a mark or the rows of a block file.
    Extra,
    /// A field is outside its limits.
    Value,
    /// The place of a row of a block file does not follow the row before it, or its bytes pass the end of the blocks.
    Row,
    /// The rest of the last slab of a block file is not zero, or there are more slabs than the blocks need.
    Padding,
}

/// The first fault of a body or a file: its kind, and the place in the body or the file, in bytes from 0, that it is at.
#[derive(Clone, Copy, Debug, PartialEq, Eq)]
pub struct Misread {
    pub at: u64,
    pub kind: Wrong,
}
