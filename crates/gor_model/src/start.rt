//! The start of a shard's history, as data.
use crate::bytes::Bytes;
use crate::point::Points;
use std::collections::LinkedList;

/// A series under its key: the spelling that is shown, its slot, its uid (the number of the change that began it), its
/// floor and its points in order.
#[derive(Drop)]
pub struct Row {
    pub name: Bytes,
    pub slot: u32,
    pub uid: u64,
    pub floor: u64,
    pub points: Points,
}

/// The map that a shard starts from, as its opening recovered it; of how many shards it is which; and what disk was opened: the
/// moment of its clock as the opening began, how often it had failed then, and whether the files that it held were fit.
/// Answers depend on the map alone. Contracts alone speak of a start: no value of it is made.
#[derive(Drop)]
pub struct Start {
    pub slots: u32,
    pub floor: u64,
    pub next: u64,
    pub rows: LinkedList<(Bytes, Row)>,
    pub shards: u32,
    pub shard: u32,
    pub since: u64,
    pub faults: u64,
    pub fit: bool,
}

/// What a pass did to an object of a shard, by the object's number. Contracts alone speak of it.
pub enum Move {
    Took(u32),
    Gave(u32),
}
