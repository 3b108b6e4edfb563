//! Tests of cells: a case is what is done to one cell, step by step, with what is wanted of each step.
use gor_block::Block;
use gor_cell::{BoxedBlock, Cell, CellPut, LiveCell, SealedRing};
use gor_name::Name;
use std::alloc::{AllocError, Global};
use std::mem::size_of;
use std::process::Abort;
use std::test::Fail;

#[derive(Clone, Copy)]
enum Step {
    /// A series begins in a vacant cell: its spelling, its uid and its floor.
    Begin(&'static str, u64, u64),
    /// The series ends, and the cell is vacant.
    Bury,
    /// Whether the cell is live.
    Live(bool),
    /// Whether the cell holds the series of a key.
    Holds(&'static [u8], bool),
    /// The spelling, the uid, the floor and the last time.
    Shows(&'static str, u64, u64, Option<u64>),
    /// The floor and the last time.
    Ends(u64, Option<u64>),
    /// Puts a time and a word.
    Put(u64, u64, CellPut),
    /// Puts times with the words 1, 2, .. that are stored.
    Store(&'static [u64]),
    /// Puts the first and the last time of so many windows, with the words 1 and 2, which are stored.
    StoreBorders(u64),
    /// Makes room for a time that is not put.
    Reserve(u64),
    /// Seals the windows from the first to the second, which gives blocks of these.
    Seal(u32, u32, &'static [u32]),
    /// Seals so many windows one after another, each of which gives its block.
    SealEach(u32),
    /// Reads a range, which gives points at these times.
    Read(u64, u64, &'static [u64]),
    /// Reads a range, which gives so many points.
    Count(u64, u64, usize),
    /// The blocks that are not sealed: the window of each, its count of points and its count of bits.
    Later(&'static [(u32, u32, usize)]),
    /// How many blocks are not sealed, the first window of those that are, and one that is there.
    Split(usize, u32, u32),
}

const LATE: CellPut = CellPut::NotLater { last: 1427162462 };

const CASES: [(&str, &[Step]); 10] = [
    (
        "a cell is vacant or live",
        &[
            Step::Live(false),
            Step::Holds(b"cpu", false),
            Step::Begin("Cpu", 7, 79200),
            Step::Live(true),
            Step::Holds(b"cpu", true),
            Step::Holds(b"Cpu", false),
            Step::Shows("Cpu", 7, 79200, None),
        ],
    ),
    (
        "points on both sides of a window's border, and one of a later window, make a block each",
        &[
            Step::Begin("a", 1, 0),
            Step::Store(&[1427169599, 1427169600, 1427198400]),
            Step::Later(&[(198217, 1, 78), (198218, 1, 78), (198222, 1, 78)]),
        ],
    ),
    (
        "a tie is late",
        &[
            Step::Begin("a", 1, 0),
            Step::Store(&[1427162462]),
            Step::Put(1427162462, 1, LATE),
            Step::Put(5, 1, LATE),
            Step::Put(1427162463, 1, CellPut::Stored),
            Step::Read(1427162463, 1427162463, &[1427162463]),
        ],
    ),
    (
        "a point below the floor is refused, and one at it is stored",
        &[
            Step::Begin("a", 1, 0),
            Step::Store(&[79000]),
            Step::Seal(0, 10, &[10]),
            Step::Put(79199, 2, CellPut::Closed { floor: 79200 }),
            Step::Put(79200, 3, CellPut::Stored),
        ],
    ),
    (
        "what lies exactly a day behind the floor is kept, and a put is late against a kept point alone",
        &[
            Step::Begin("a", 1, 0),
            Step::Store(&[7199, 7200]),
            Step::Seal(0, 12, &[1]),
            Step::Read(0, 99999, &[7200]),
            Step::Seal(13, 13, &[]),
            Step::Read(0, 99999, &[]),
            Step::Ends(100800, None),
            Step::Put(100800, 1, CellPut::Stored),
        ],
    ),
    (
        "fourteen windows with a point at both borders, sealed one after another",
        &[
            Step::Begin("a", 1, 0),
            Step::StoreBorders(14),
            Step::SealEach(14),
            Step::Count(0, 100799, 24),
            Step::Read(0, 21598, &[14400]),
            Step::Read(14401, 21599, &[21599]),
            Step::Read(21599, 21600, &[21599, 21600]),
            Step::Read(0, 14399, &[]),
            Step::Read(100799, 4294965599, &[100799]),
        ],
    ),
    (
        "all at once, while a point of a later window stays open",
        &[
            Step::Begin("a", 1, 0),
            Step::Store(&[100, 50000, 93600, 93700]),
            Step::Seal(1, 12, &[6]),
            Step::Split(1, 1, 6),
            Step::Put(93800, 5, CellPut::Stored),
            Step::Read(50000, 93750, &[50000, 93600, 93700]),
        ],
    ),
    (
        "a delete ends the series, and a new beginning may have an earlier time",
        &[
            Step::Begin("a", 1, 0),
            Step::Store(&[1000]),
            Step::Bury,
            Step::Live(false),
            Step::Begin("b", 3, 0),
            Step::Store(&[500]),
            Step::Holds(b"b", true),
            Step::Read(0, 2000, &[500]),
        ],
    ),
    (
        "room that was made and not used is in nobody's way",
        &[
            Step::Begin("a", 1, 0),
            Step::Store(&[10]),
            Step::Reserve(90000),
            Step::Reserve(20000),
            Step::Reserve(30),
            Step::Store(&[20, 8000]),
            Step::Seal(0, 5, &[0, 1]),
            Step::Read(0, 90000, &[10, 20, 8000]),
        ],
    ),
    // Its points under the floor 0, and then a seal of the window that ends at its floor.
    (
        "a recovered row becomes a cell",
        &[
            Step::Begin("a", 9, 0),
            Step::Store(&[7200, 93599, 93600, 200000]),
            Step::Seal(12, 12, &[12]),
            Step::Ends(93600, Some(200000)),
            Step::Read(0, 300000, &[7200, 93599, 93600, 200000]),
        ],
    ),
];

/// Whether a step does what is wanted of it.
fn does(alloc: Global, cell: &mut Cell, step: Step) -> Result<bool, AllocError> {
    match step {
        Step::Begin(text, uid, floor) => Ok(begins(alloc, cell, text, uid, floor)),
        Step::Bury => Ok(ends(cell)),
        Step::Live(live) => Ok(cell.is_live() == live),
        Step::Holds(key, there) => Ok(cell.holds(key) == there),
        Step::Shows(text, uid, floor, last) => {
            Ok(is_named(cell, text, uid) && has_ends(cell, floor, last))
        }
        Step::Ends(floor, last) => Ok(has_ends(cell, floor, last)),
        Step::Put(time, word, answer) => puts(cell, time, word, answer),
        Step::Store(times) => stores(cell, times),
        Step::StoreBorders(count) => stores_borders(cell, count),
        Step::Reserve(time) => reserves(cell, time),
        Step::Seal(first, window, windows) => seals(cell, first, window, windows),
        Step::SealEach(count) => seals_each(cell, count),
        Step::Read(from, to, times) => reads(cell, from, to, times),
        Step::Count(from, to, count) => counts(cell, from, to, count),
        Step::Later(blocks) => Ok(has_later(cell, blocks)),
        Step::Split(later, first, there) => Ok(is_split(cell, later, first, there)),
    }
}

fn begins(alloc: Global, cell: &mut Cell, text: &str, uid: u64, floor: u64) -> bool {
    if cell.live.is_some() {
        return false;
    }
    let Ok(name) = Name::read(alloc, text) else {
        return false;
    };
    cell.occupy(name, uid, floor);
    true
}

fn ends(cell: &mut Cell) -> bool {
    let live = cell.live.is_some();
    if live {
        cell.bury();
    }
    live
}

fn is_named(cell: &Cell, text: &str, uid: u64) -> bool {
    cell.live.is_some() && cell.name().text() == text && cell.uid() == uid
}

fn has_ends(cell: &Cell, floor: u64, last: Option<u64>) -> bool {
    cell.live.is_some() && cell.floor() == floor && cell.last() == last
}

/// Makes the room for a point and puts it.
fn puts(cell: &mut Cell, time: u64, word: u64, answer: CellPut) -> Result<bool, AllocError> {
    if cell.live.is_none() || time > 4294965599 {
        return Ok(false);
    }
    cell.reserve_put(time)?;
    Ok(cell.put_reserved(time, word) == answer)
}

fn stores(cell: &mut Cell, times: &[u64]) -> Result<bool, AllocError> {
    for (place, time) in times.iter().enumerate() {
        if !puts(cell, *time, place as u64 + 1, CellPut::Stored)? {
            return Ok(false);
        }
    }
    Ok(true)
}

fn stores_borders(cell: &mut Cell, count: u64) -> Result<bool, AllocError> {
    for window in 0..count.min(100) {
        if !stores(cell, &[7200 * window, 7200 * window + 7199])? {
            return Ok(false);
        }
    }
    Ok(true)
}

fn reserves(cell: &mut Cell, time: u64) -> Result<bool, AllocError> {
    if cell.live.is_none() || time > 4294965599 {
        return Ok(false);
    }
    cell.reserve_put(time)?;
    Ok(true)
}

fn seals(cell: &mut Cell, first: u32, window: u32, windows: &[u32]) -> Result<bool, AllocError> {
    if cell.live.is_none() || first > window || cell.floor() >= (window as u64 + 1) * 7200 {
        return Ok(false);
    }
    let sealed = cell.seal(first, window)?;
    Ok(are_of(&sealed.blocks, windows))
}

fn seals_each(cell: &mut Cell, count: u32) -> Result<bool, AllocError> {
    for window in 0..count {
        if !seals(cell, window, window, &[window])? {
            return Ok(false);
        }
    }
    Ok(true)
}

/// The blocks are of these windows.
fn are_of(blocks: &[Block], windows: &[u32]) -> bool {
    for (block, window) in blocks.iter().zip(windows) {
        if block.window != *window {
            return false;
        }
    }
    blocks.len() == windows.len()
}

fn reads(cell: &Cell, from: u64, to: u64, times: &[u64]) -> Result<bool, AllocError> {
    if cell.live.is_none() {
        return Ok(false);
    }
    let points = cell.copy_range(from, to)?.points()?;
    for (point, time) in points.as_slice().iter().zip(times) {
        if point.time != *time {
            return Ok(false);
        }
    }
    Ok(points.len() == times.len())
}

fn counts(cell: &Cell, from: u64, to: u64, count: usize) -> Result<bool, AllocError> {
    if cell.live.is_none() {
        return Ok(false);
    }
    Ok(cell.copy_range(from, to)?.points()?.len() == count)
}

/// Takes a live cell apart: it has these five fields, and no other place for a point.
fn blocks_of(live: &LiveCell) -> (&[BoxedBlock], &SealedRing) {
    let LiveCell {
        name: _,
        uid: _,
        floor: _,
        later,
        sealed,
    } = live;
    (later, sealed)
}

fn has_later(cell: &Cell, blocks: &[(u32, u32, usize)]) -> bool {
    let Some(live) = &cell.live else {
        return false;
    };
    let (later, _) = blocks_of(live);
    for (later, (window, count, bits)) in later.iter().zip(blocks) {
        let block = &*later.boxed;
        if block.window != *window || block.count != *count || block.bits.len() != *bits {
            return false;
        }
    }
    later.len() == blocks.len()
}

fn is_split(cell: &Cell, count: usize, first: u32, there: u32) -> bool {
    let Some(live) = &cell.live else {
        return false;
    };
    let (later, sealed) = blocks_of(live);
    match &sealed.ring {
        Some(ring) => later.len() == count && ring.first() == first && ring.get(there).is_some(),
        None => false,
    }
}

/// Does the steps of a case on a new cell.
fn run(rt: &impl Abort, alloc: Global, case: &str, steps: &[Step]) -> Result<(), AllocError> {
    let mut cell = Cell::vacant(alloc);
    for (place, step) in steps.iter().enumerate() {
        assert!(rt; does(alloc, &mut cell, *step)?, "{case}: step {place}");
    }
    Ok(())
}

#[test]
fn cells_do_what_their_cases_say(rt: HostRuntime) -> Result<(), Fail> {
    for (case, steps) in CASES {
        run(&rt, rt.alloc(), case, steps)?;
    }
    Ok(())
}

/// The most bytes that a cell may have, since it is moved at each take and give.
const MOST_BYTES: usize = 256;

#[test]
fn a_cell_is_small_where_it_is_moved(rt: HostRuntime) {
    assert!(rt; size_of::<Cell>() <= MOST_BYTES);
}
