//! One byte of a file that becomes another, and the damage that is then told: of each kind of file by itself, of the worked
//! store, and of the store with three sealed windows.

use crate::laid::{Bytes, bytes_of, one_block, write};
use crate::sealed::lay_store;
use crate::steps::{ONLY, damage, fault_of};
use gor_disk::{FileId, MemoryDisk};
use gor_image::DamageKind;
use std::alloc::Global;

const MARKS: FileId = FileId::Marks;

/// The key list of a store without a sealed window, and that of a store with one, which follows change 8.
const LIST: FileId = FileId::Keys(0);

const SEALED_LIST: FileId = FileId::Keys(1);

/// The first log, and the one behind it.
const FIRST: FileId = FileId::Log(0);

const BEHIND: FileId = FileId::Log(1);

const WINDOW: FileId = FileId::Block(198_217);

/// What lies on the disk.
#[derive(Clone, Copy)]
pub(crate) enum Store {
    /// These bytes of the file, and those files alone that are read before it.
    Alone(Bytes),
    /// The worked block file, in the same way.
    Block,
    Worked,
    /// The store with three sealed windows.
    Sealed,
}

// Lays what is read before a file.
fn lay_before(disk: &mut MemoryDisk, file: FileId) -> bool {
    match file {
        FileId::Marks => true,
        FileId::Keys(0) | FileId::Log(0) => write(disk, MARKS, 0, bytes_of(Bytes::Marks)),
        FileId::Log(_) => {
            write(disk, MARKS, 0, bytes_of(Bytes::SealedOnce))
                && write(disk, WINDOW, 0, bytes_of(Bytes::NoBlocks))
                && write(disk, FIRST, 0, bytes_of(Bytes::Log))
        }
        FileId::Keys(_) | FileId::Block(_) => { write(disk, MARKS, 0, bytes_of(Bytes::SealedOnce)) }
    }
}

fn lay_worked(disk: &mut MemoryDisk) -> bool {
    write(disk, MARKS, 0, bytes_of(Bytes::Marks))
        && write(disk, LIST, 0, bytes_of(Bytes::Keys))
        && write(disk, FIRST, 0, bytes_of(Bytes::Log))
}

/// Lays a store, in which this file is looked at.
pub(crate) fn lay(alloc: Global, disk: &mut MemoryDisk, store: Store, file: FileId) -> bool {
    match store {
        Store::Alone(bytes) => { lay_before(disk, file) && write(disk, file, 0, bytes_of(bytes)) }
        Store::Block => match one_block(alloc, false) {
            Ok(bytes) => lay_before(disk, file) && write(disk, file, 0, &bytes),
            Err(_) => false,
        },
        Store::Worked => lay_worked(disk),
        Store::Sealed => lay_store(alloc, disk),
    }
}

/// A store, the byte of a file that is changed, what it becomes, and the place and kind of the damage of that file; None
/// where the shard is opened. A file without a byte stays so.
type Row = (Store, FileId, u64, u8, Option<(u64, DamageKind)>);

const ROWS: [Row; 88] = [
    // The marks by themselves.
    (
        Store::Alone(Bytes::Marks),
        MARKS,
        8,
        12,
        Some((0, DamageKind::Cut)),
    ),
    (
        Store::Alone(Bytes::Marks),
        MARKS,
        9,
        2,
        Some((9, DamageKind::Version)),
    ),
    (
        Store::Alone(Bytes::Marks),
        MARKS,
        10,
        2,
        Some((10, DamageKind::Kind)),
    ),
    (
        Store::Alone(Bytes::Marks),
        MARKS,
        14,
        0,
        Some((11, DamageKind::Value)),
    ),
    (
        Store::Alone(Bytes::Marks),
        MARKS,
        18,
        1,
        Some((15, DamageKind::Value)),
    ),
    (
        Store::Alone(Bytes::Marks),
        MARKS,
        8,
        9,
        Some((9, DamageKind::Short)),
    ),
    (
        Store::Alone(Bytes::Marks),
        MARKS,
        8,
        11,
        Some((19, DamageKind::Extra)),
    ),
    (
        Store::Alone(Bytes::Sealed),
        MARKS,
        58,
        24,
        Some((50, DamageKind::Cut)),
    ),
    (
        Store::Alone(Bytes::Sealed),
        MARKS,
        29,
        1,
        Some((29, DamageKind::Kind)),
    ),
    (
        Store::Alone(Bytes::Sealed),
        MARKS,
        31,
        16,
        Some((30, DamageKind::Value)),
    ),
    (
        Store::Alone(Bytes::Sealed),
        MARKS,
        69,
        128,
        Some((69, DamageKind::Value)),
    ),
    (
        Store::Alone(Bytes::Sealed),
        MARKS,
        80,
        3,
        Some((77, DamageKind::Value)),
    ),
    (
        Store::Alone(Bytes::Sealed),
        MARKS,
        64,
        5,
        Some((61, DamageKind::Order)),
    ),
    (
        Store::Alone(Bytes::Sealed),
        MARKS,
        68,
        3,
        Some((65, DamageKind::Order)),
    ),
    (
        Store::Alone(Bytes::Sealed),
        MARKS,
        76,
        6,
        Some((69, DamageKind::Order)),
    ),
    (
        Store::Alone(Bytes::Sealed),
        MARKS,
        80,
        0,
        Some((77, DamageKind::Order)),
    ),
    (
        Store::Alone(Bytes::Sealed),
        MARKS,
        58,
        23,
        Some((81, DamageKind::Extra)),
    ),
    (Store::Alone(Bytes::Nothing), MARKS, 0, 0, None),
    // The key list by itself, of a store without a sealed window and of one with it.
    (
        Store::Alone(Bytes::Keys),
        LIST,
        8,
        22,
        Some((0, DamageKind::Cut)),
    ),
    (
        Store::Alone(Bytes::Keys),
        LIST,
        9,
        2,
        Some((9, DamageKind::Version)),
    ),
    (
        Store::Alone(Bytes::Keys),
        LIST,
        10,
        3,
        Some((10, DamageKind::Kind)),
    ),
    (
        Store::Alone(Bytes::Keys),
        LIST,
        8,
        19,
        Some((10, DamageKind::Short)),
    ),
    (
        Store::Alone(Bytes::Keys),
        LIST,
        18,
        0,
        Some((11, DamageKind::Value)),
    ),
    (
        Store::Alone(Bytes::Keys),
        LIST,
        21,
        64,
        Some((19, DamageKind::Value)),
    ),
    (
        Store::Alone(Bytes::Keys),
        LIST,
        26,
        1,
        Some((23, DamageKind::Value)),
    ),
    (
        Store::Alone(Bytes::Keys),
        LIST,
        27,
        0,
        Some((27, DamageKind::Value)),
    ),
    (
        Store::Alone(Bytes::Keys),
        LIST,
        28,
        32,
        Some((28, DamageKind::Value)),
    ),
    (
        Store::Alone(Bytes::Lives),
        SEALED_LIST,
        10,
        1,
        Some((10, DamageKind::Kind)),
    ),
    (
        Store::Alone(Bytes::Lives),
        SEALED_LIST,
        41,
        0,
        Some((38, DamageKind::Order)),
    ),
    (
        Store::Alone(Bytes::Lives),
        SEALED_LIST,
        58,
        3,
        Some((58, DamageKind::Kind)),
    ),
    (
        Store::Alone(Bytes::Lives),
        SEALED_LIST,
        66,
        8,
        Some((59, DamageKind::Order)),
    ),
    (
        Store::Alone(Bytes::Lives),
        SEALED_LIST,
        69,
        64,
        Some((67, DamageKind::Value)),
    ),
    // A log by itself, the first and one behind a log whose last change is 1.
    (
        Store::Alone(Bytes::Log),
        FIRST,
        9,
        2,
        Some((9, DamageKind::Version)),
    ),
    (
        Store::Alone(Bytes::Log),
        FIRST,
        26,
        7,
        Some((26, DamageKind::Kind)),
    ),
    (
        Store::Alone(Bytes::Log),
        FIRST,
        17,
        0,
        Some((10, DamageKind::Value)),
    ),
    (Store::Alone(Bytes::Log), FIRST, 0, 0, None),
    (
        Store::Alone(Bytes::Log),
        FIRST,
        8,
        40,
        Some((0, DamageKind::Cut)),
    ),
    (
        Store::Alone(Bytes::Log),
        FIRST,
        8,
        36,
        Some((26, DamageKind::Short)),
    ),
    (
        Store::Alone(Bytes::Log),
        FIRST,
        34,
        0,
        Some((27, DamageKind::Value)),
    ),
    (
        Store::Alone(Bytes::Log),
        BEHIND,
        47,
        0,
        Some((10, DamageKind::Order)),
    ),
    (
        Store::Alone(Bytes::Logs),
        FIRST,
        64,
        1,
        Some((57, DamageKind::Order)),
    ),
    (
        Store::Alone(Bytes::Logs),
        FIRST,
        72,
        1,
        Some((57, DamageKind::Value)),
    ),
    // The block file with the worked block by itself, and none.
    (Store::Block, WINDOW, 7, 2, Some((0, DamageKind::Version))),
    (Store::Block, WINDOW, 7, 3, Some((0, DamageKind::Version))),
    (Store::Block, WINDOW, 0, 72, Some((0, DamageKind::Version))),
    (Store::Block, WINDOW, 9, 128, Some((8, DamageKind::Value))),
    (
        Store::Block,
        WINDOW,
        15,
        2,
        Some((65_584, DamageKind::Short)),
    ),
    (
        Store::Block,
        WINDOW,
        23,
        0,
        Some((65_560, DamageKind::Extra)),
    ),
    (
        Store::Block,
        WINDOW,
        65_567,
        0,
        Some((65_560, DamageKind::Value)),
    ),
    (
        Store::Block,
        WINDOW,
        65_571,
        74,
        Some((65_568, DamageKind::Value)),
    ),
    (
        Store::Block,
        WINDOW,
        65_579,
        1,
        Some((65_560, DamageKind::Row)),
    ),
    (Store::Block, WINDOW, 45, 1, Some((45, DamageKind::Padding))),
    (Store::Block, WINDOW, 27, 72, Some((24, DamageKind::Block))),
    (Store::Block, WINDOW, 31, 4, Some((24, DamageKind::Block))),
    (
        Store::Alone(Bytes::Nothing),
        WINDOW,
        0,
        0,
        Some((0, DamageKind::Short)),
    ),
    // The worked store.
    (Store::Worked, MARKS, 8, 12, Some((0, DamageKind::Cut))),
    (Store::Worked, MARKS, 8, 11, Some((19, DamageKind::Extra))),
    (Store::Worked, MARKS, 8, 9, Some((9, DamageKind::Short))),
    (Store::Worked, MARKS, 10, 2, Some((10, DamageKind::Kind))),
    (Store::Worked, MARKS, 14, 0, Some((11, DamageKind::Value))),
    (Store::Worked, MARKS, 18, 1, Some((15, DamageKind::Value))),
    (Store::Worked, LIST, 10, 3, Some((10, DamageKind::Kind))),
    (Store::Worked, LIST, 18, 0, Some((11, DamageKind::Value))),
    (Store::Worked, LIST, 21, 64, Some((19, DamageKind::Value))),
    (Store::Worked, LIST, 26, 1, Some((23, DamageKind::Value))),
    (Store::Worked, LIST, 27, 2, Some((10, DamageKind::Short))),
    (Store::Worked, LIST, 28, 32, Some((28, DamageKind::Value))),
    (Store::Worked, FIRST, 9, 2, Some((9, DamageKind::Version))),
    (Store::Worked, FIRST, 26, 7, Some((26, DamageKind::Kind))),
    (Store::Worked, FIRST, 17, 0, Some((10, DamageKind::Value))),
    // The store with three sealed windows: each kind of damage.
    (Store::Sealed, MARKS, 89, 24, Some((81, DamageKind::Cut))),
    (Store::Sealed, MARKS, 89, 23, Some((112, DamageKind::Extra))),
    (Store::Sealed, MARKS, 95, 11, Some((92, DamageKind::Order))),
    (Store::Sealed, MARKS, 111, 4, Some((108, DamageKind::Value))),
    (
        Store::Sealed,
        FileId::Keys(3),
        10,
        1,
        Some((10, DamageKind::Kind)),
    ),
    (
        Store::Sealed,
        FileId::Keys(3),
        47,
        65,
        Some((29, DamageKind::Name)),
    ),
    (
        Store::Sealed,
        FileId::Keys(3),
        66,
        9,
        Some((59, DamageKind::Order)),
    ),
    (
        Store::Sealed,
        FileId::Keys(3),
        70,
        0,
        Some((58, DamageKind::Slot)),
    ),
    (
        Store::Sealed,
        FileId::Keys(3),
        76,
        65,
        Some((58, DamageKind::Name)),
    ),
    (
        Store::Sealed,
        FileId::Keys(3),
        89,
        3,
        Some((77, DamageKind::Slot)),
    ),
    (
        Store::Sealed,
        FileId::Block(11),
        7,
        9,
        Some((0, DamageKind::Version)),
    ),
    (
        Store::Sealed,
        FileId::Block(11),
        27,
        11,
        Some((24, DamageKind::Block)),
    ),
    (
        Store::Sealed,
        FileId::Block(11),
        60,
        1,
        Some((60, DamageKind::Padding)),
    ),
    (
        Store::Sealed,
        FileId::Block(11),
        65_603,
        19,
        Some((65_584, DamageKind::Row)),
    ),
    (
        Store::Sealed,
        FileId::Log(2),
        8,
        58,
        Some((47, DamageKind::Short)),
    ),
    (
        Store::Sealed,
        FileId::Log(3),
        9,
        2,
        Some((9, DamageKind::Version)),
    ),
    (
        Store::Sealed,
        FileId::Log(3),
        17,
        9,
        Some((10, DamageKind::Order)),
    ),
    (
        Store::Sealed,
        FileId::Log(3),
        81,
        0,
        Some((74, DamageKind::Value)),
    ),
];

fn has_no_byte(store: Store) -> bool {
    matches!(store, Store::Alone(Bytes::Nothing))
}

// Whether a row is told.
fn is_told(alloc: Global, row: Row) -> bool {
    let (store, file, at, to, want) = row;
    let want = match want {
        Some((place, kind)) => Some(damage(file, place, kind)),
        None => None,
    };
    let mut disk = MemoryDisk::new(alloc);
    lay(alloc, &mut disk, store, file)
        && (has_no_byte(store) || write(&mut disk, file, at, &[to]))
        && fault_of(alloc, &mut disk, ONLY) == want
}

#[test]
fn damage_is_told(rt: HostRuntime) {
    for (place, row) in ROWS.iter().enumerate() {
        let told = is_told(rt.alloc(), *row);
        assert!(rt;
            told,
            "row {place}: byte {} of {:?} is {}",
            row.2, row.1, row.3
        );
    }
}
