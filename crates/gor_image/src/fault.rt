//! What may be wrong with the files of a shard.
use gor_disk::FileId;

/// What is wrong at a place of a file.
#[derive(Clone, Copy, Debug, PartialEq, Eq)]
pub enum DamageKind {
    /// A body behind an open gate passes the end of the file. The place is the gate.
    Cut,
    /// The version of a body, or the head of a block file, is none that is known.
    Version,
    /// A kind is unknown or may not stand there.
    Kind,
    /// A record, a header, a mark or a block file passes its end.
    Short,
    /// Bytes follow the fields of a mark or the rows of a block file.
    Extra,
    /// A field is outside its limits.
    Value,
    /// A number, a slot, a window or a time does not rise.
    Order,
    /// A series begins in a slot that is taken, or one is deleted from a slot that is free.
    Slot,
    /// A series begins under a key that is there.
    Name,
    /// The place of a row does not follow the row before it, or its bytes pass the end of the blocks.
    Row,
    /// The bytes of a row are no block of its window.
    Block,
    /// The rest of the last slab is not zero, or there are more slabs than the blocks need.
    Padding,
}

/// Why a shard cannot be opened on what its disk holds.
#[derive(Clone, Copy, Debug, PartialEq, Eq)]
pub enum ImageFault {
    /// The first damage: the file, the byte of it from 0, and what is wrong there.
    Damage {
        file: FileId,
        at: u64,
        kind: DamageKind,
    },
    /// The files are those of another shard, or of a store of another count of shards.
    Home {
        found_shards: u32,
        found_shard: u32,
        asked_shards: u32,
        asked_shard: u32,
    },
    /// A name has a slot that is not below the count of slots that was given. `needed` is the greatest slot and one.
    Slots {
        needed: u32,
        given: u32,
    },
    /// The next change number is above 2^62.
    Worn {
        next: u64,
    },
}
