//! The shares of the four kinds of object, stored as data.
use gor_model::{Bytes, Change, Points, Row};

/// A series that the directory has.
#[derive(Drop)]
pub struct Named {
    /// Its key.
    pub key: Bytes,
    /// The spelling that is shown.
    pub name: Bytes,
    /// Its slot.
    pub slot: u32,
    /// The number of the change that began it.
    pub uid: u64,
}

/// The directory's share.
#[derive(Drop)]
pub struct Directory {
    /// The shard's floor, a time in the store's unit.
    pub floor: u64,
    /// The series that are there; a key stands once.
    pub series: Vec<Named>,
    /// The free slots, the next one first.
    pub free: Vec<u32>,
}

/// A series under its key.
#[derive(Drop)]
pub struct Cell {
    /// Its key.
    pub key: Bytes,
    /// Its row, with the kept points.
    pub row: Row,
}

/// What the records of a change hold besides it.
#[derive(Drop)]
pub enum Aside {
    /// The uid of its series.
    OfSeries { uid: u64 },
    /// The uid, the slot and the floor of the series that it begins.
    Begins { uid: u64, slot: u32, floor: u64 },
    /// The slot that it frees.
    Frees { slot: u32 },
    /// Nothing.
    Nothing,
}

/// A change that waits for the next Take.
#[derive(Drop)]
pub struct Waiting {
    /// The change.
    pub change: Change,
    /// What its records hold besides.
    pub aside: Aside,
}

/// The journal's share, with the weight of its changes beside it.
#[derive(Drop)]
pub struct Journal {
    /// The changes since the last Take, the newest last.
    pub waiting: Vec<Waiting>,
    /// Their weight: 21 a put, 5 a floor, 13 a seal, 0 a delete.
    pub weight: u64,
    /// The next change's number.
    pub next: u64,
    /// Whether the shard is stopped.
    pub stopped: bool,
}

/// A Done.
#[derive(Drop)]
pub struct Done {
    /// Its moment of the disk's clock.
    pub moment: u64,
    /// The count of changes that it answers.
    pub count: u64,
}

/// A series as a Seal left it.
#[derive(Drop)]
pub struct Sealed {
    /// Its slot.
    pub slot: u32,
    /// Its uid.
    pub uid: u64,
    /// Its kept points after the Seal.
    pub points: Points,
}

/// The last finish that is done.
#[derive(Drop)]
pub struct Finished {
    /// Its window.
    pub window: u32,
    /// The count of changes before its Take.
    pub taken: u64,
    /// Its seals, the newest last.
    pub seals: Vec<Sealed>,
}

/// The device's share. Its lists have the newest last.
#[derive(Drop)]
pub struct Device {
    /// The shard's floor, a time in the store's unit.
    pub floor: u64,
    /// The changes before the last Take.
    pub taken: Vec<Change>,
    /// Each Done.
    pub dones: Vec<Done>,
    /// Whether the last Take still waits for its Done.
    pub waits: bool,
    /// Whether the shard is stopped.
    pub stopped: bool,
    /// The seals since the shard's floor last rose.
    pub seals: Vec<Sealed>,
    /// The last finish of a window that is done.
    pub finished: Option<Finished>,
}
