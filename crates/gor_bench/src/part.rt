//! The parts that can be measured, by their words.
use crate::fault::Fault;
use crate::{blocks, cell, codes, recovery, shard, store, table};
use std::alloc::Global;
use std::sync::Wait;
use std::thread::Threads;
use std::time::Clock;

/// What a word of the command measures.
#[derive(Clone, Copy)]
pub enum Part {
    /// `codes`: the codes of times and words, each way.
    Codes,
    /// `blocks`: blocks, pushed and decoded.
    Blocks,
    /// `cell`: a day of a cell, put, copied and decoded.
    Cell,
    /// `table`: a hall's take, mark and give.
    Table,
    /// `shard`: puts and gets through a shard.
    Shard,
    /// `store`: the program's path.
    Store,
    /// `recovery`: what a shard's files hold, read back.
    Recovery,
}

impl Part {
    /// The part of a word, if it has one.
    pub fn of(word: &str) -> Option<Part> {
        match word {
            "codes" => Some(Part::Codes),
            "blocks" => Some(Part::Blocks),
            "cell" => Some(Part::Cell),
            "table" => Some(Part::Table),
            "shard" => Some(Part::Shard),
            "store" => Some(Part::Store),
            "recovery" => Some(Part::Recovery),
            _ => None,
        }
    }

    /// Measures it, and prints its figures. What is measured on real files has them of the host.
    pub fn measure<R: Threads + Wait + Sync + Clock + Print>(
        self,
        rt: &R,
        host: &HostRuntime,
        alloc: Global,
    ) -> Result<(), Fault> {
        match self {
            Part::Codes => codes::measure(rt, alloc),
            Part::Blocks => blocks::measure(rt, alloc),
            Part::Cell => cell::measure(rt, alloc),
            Part::Table => table::measure(rt, alloc),
            Part::Shard => shard::measure(rt, alloc),
            Part::Store => store::measure(rt, host),
            Part::Recovery => recovery::measure(rt, alloc),
        }
    }
}
