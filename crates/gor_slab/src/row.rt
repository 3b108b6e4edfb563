//! A row of a block file's index.
use gor_model::Unit;

/// Where the block of a series in a window stands. A uid is from 1 to 2^63 - 1, and a window at most 596,522. The place and
/// the length are in bytes, and the place counts from the first slab.
#[derive(Clone, Copy, Debug, PartialEq, Eq)]
pub struct SlabRow {
    pub uid: u64,
    pub window: u32,
    pub place: u64,
    pub length: u32,
}

/// The rows of a block file, in order, and the unit of the times in its blocks.
#[derive(Drop)]
pub struct SlabIndex {
    pub unit: Unit,
    pub rows: Vec<SlabRow>,
}

/// What the header of a file says: the bytes of its slabs, and how many rows follow them.
#[derive(Clone, Copy)]
pub struct Sizes {
    pub room: usize,
    pub rows: usize,
}

/// The rows of a file, and how many bytes their blocks take.
#[derive(Drop)]
pub struct Rows {
    pub rows: Vec<SlabRow>,
    pub used: usize,
}

/// The bytes of the header, of a slab, and of a row.
pub(crate) const HEADER_LEN: usize = 24;

pub(crate) const SLAB_LEN: usize = 65_536;

pub(crate) const ROW_LEN: usize = 24;

/// Neither the slabs nor the rows of a file take more bytes, which bounds their counts.
pub(crate) const GREATEST_PART: usize = 1 << 62;

pub(crate) const GREATEST_SLABS: usize = 1 << 46;

pub(crate) const GREATEST_ROWS: usize = 192_153_584_101_141_162;
