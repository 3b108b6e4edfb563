//! The records of a key list.
use gor_model::Unit;
use gor_name::Name;

/// A record of a key list. A number is that of a change, and a uid that of the change which began the series: both are from
/// 1 to 2^63 - 1. A slot is at most 16,383 where times are in seconds, and at most 65,535 where they are in milliseconds. A
/// floor is 0 or the end of a window, in the body's unit.
#[derive(Drop)]
pub enum KeyRecord {
    /// A series began. Its uid is the number.
    Create {
        number: u64,
        slot: u32,
        floor: u64,
        name: Name,
    },
    /// The series of a slot was deleted.
    Delete {
        number: u64,
        slot: u32,
    },
    /// A series that stood at a finish.
    Live {
        uid: u64,
        slot: u32,
        floor: u64,
        name: Name,
    },
}

/// The records of a body, in order, and the unit of their floors.
#[derive(Drop)]
pub struct KeyBody {
    pub unit: Unit,
    pub records: Vec<KeyRecord>,
}

/// What a Create and a Live have alike.
#[derive(Drop)]
pub struct Series {
    pub number: u64,
    pub slot: u32,
    pub floor: u64,
    pub name: Name,
}
