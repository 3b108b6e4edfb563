//! Tests of blocks: what is done to a block, step by step, and tables of bytes with the fault of each.
use gor_block::{Block, BlockFault};
use gor_model::{Point, Unit};
use std::alloc::{AllocError, Global};
use std::process::Abort;
use std::test::Fail;

#[derive(Clone, Copy)]
enum Step {
    /// Puts a time and a word that may follow.
    Put(u64, u64),
    /// Makes the room for a time and a word first, and puts them there.
    PutReserved(u64, u64),
    /// Puts so many times, one after another, all with one word.
    PutEach(u64, u64, u64),
    /// The window and the count of points.
    Holds(u32, u32),
    /// The counts of points and of bits.
    Sizes(u32, usize),
    /// The last time.
    Last(Option<u64>),
    /// The points.
    Points(&'static [Point]),
    /// The count of the points that are read, and the last of them.
    Ends(usize, Point),
    /// The bytes: so many of these, from the front.
    Bytes(usize, &'static [u8]),
    /// The count of the bytes, and those from a place on.
    BytesFrom(usize, usize, &'static [u8]),
}

// Three points 60 seconds apart, and a zero byte behind their block.
const SECONDS: [u8; 22] = [
    0x00, 0x03, 0x06, 0x49, 0, 0, 0, 3, 0x00, 0xf9, 0x00, 0xa0, 0, 0, 0, 0, 0, 0x02, 0x7a, 0x6b,
    0x06, 0x00,
];

// The same times in milliseconds.
const MILLISECONDS: [u8; 23] = [
    0x00, 0x03, 0x06, 0x49, 0, 0, 0, 3, 0x00, 0xf2, 0x30, 0x40, 0x28, 0, 0, 0, 0, 0, 0, 0xe0, 0x2f,
    0x35, 0x83,
];

const WRITTEN: [(&str, Unit, u32, &[Step]); 4] = [
    (
        "three points of seconds are written",
        Unit::Second,
        198217,
        &[
            Step::Put(1427162462, 0x4028_0000_0000_0000),
            Step::Put(1427162522, 0x4028_0000_0000_0000),
            Step::Put(1427162582, 0x4038_0000_0000_0000),
            Step::Sizes(3, 103),
            Step::Bytes(21, &SECONDS),
        ],
    ),
    (
        "three points of milliseconds are written",
        Unit::Milli,
        198217,
        &[
            Step::Put(1427162462000, 0x4028_0000_0000_0000),
            Step::Put(1427162522000, 0x4028_0000_0000_0000),
            Step::Put(1427162582000, 0x4038_0000_0000_0000),
            Step::Sizes(3, 120),
            Step::Bytes(23, &MILLISECONDS),
        ],
    ),
    (
        "room is made first",
        Unit::Second,
        0,
        &[
            Step::PutReserved(0, 7),
            Step::Last(Some(0)),
            Step::Points(&[Point { time: 0, word: 7 }]),
        ],
    ),
    // A point at each second of window 1, all of one word. Behind the first point's 78 bits are 10 of the second, where the
    // difference grows by one, and 2 of each other.
    (
        "a window of seconds is full",
        Unit::Second,
        1,
        &[
            Step::PutEach(7200, 7200, 0xffff_ffff_ffff_ffff),
            Step::Sizes(7200, 14484),
            Step::Ends(
                7200,
                Point {
                    time: 14399,
                    word: 0xffff_ffff_ffff_ffff,
                },
            ),
        ],
    ),
];

// A window ends where the next begins: a block of one time has so many bits.
const BORDERS: [(Unit, u32, u64, usize); 6] = [
    (Unit::Second, 198217, 1427169599, 78),
    (Unit::Second, 198218, 1427169600, 78),
    (Unit::Second, 198222, 1427198400, 78),
    (Unit::Milli, 198217, 1427169599999, 88),
    (Unit::Milli, 198218, 1427169600000, 88),
    (Unit::Milli, 198222, 1427198400000, 88),
];

const READ_SECONDS: [Step; 3] = [
    Step::Holds(198217, 3),
    Step::Last(Some(1427162582)),
    Step::Points(&[
        Point {
            time: 1427162462,
            word: 0x4028_0000_0000_0000,
        },
        Point {
            time: 1427162522,
            word: 0x4028_0000_0000_0000,
        },
        Point {
            time: 1427162582,
            word: 0x4038_0000_0000_0000,
        },
    ]),
];

const READ_MILLISECONDS: [Step; 3] = [
    Step::Holds(198217, 3),
    Step::Last(Some(1427162582000)),
    Step::Points(&[
        Point {
            time: 1427162462000,
            word: 0x4028_0000_0000_0000,
        },
        Point {
            time: 1427162522000,
            word: 0x4028_0000_0000_0000,
        },
        Point {
            time: 1427162582000,
            word: 0x4038_0000_0000_0000,
        },
    ]),
];

// A copy goes on by itself: a fourth point behind it, where the window of the third word fits.
const COPIED: [Step; 3] = [
    Step::Put(1427162642, 0x4028_0000_0000_0000),
    Step::Sizes(4, 107),
    Step::BytesFrom(22, 18, &[0x7a, 0x6b, 0x06, 0xa0]),
];

/// Whether a step does what is wanted of it.
fn does(block: &mut Block, step: Step) -> Result<bool, AllocError> {
    match step {
        Step::Put(time, word) => puts(block, time, word),
        Step::PutReserved(time, word) => puts_reserved(block, time, word),
        Step::PutEach(count, first, word) => puts_each(block, count, first, word),
        Step::Holds(window, count) => Ok(block.window == window && block.count == count),
        Step::Sizes(count, bits) => Ok(block.count == count && block.bits.len() == bits),
        Step::Last(time) => Ok(block.last() == time),
        Step::Points(points) => Ok(block.points()?.as_slice() == points),
        Step::Ends(count, last) => ends(block, count, last),
        Step::Bytes(count, bytes) => has_bytes(block, count, bytes),
        Step::BytesFrom(count, at, bytes) => has_bytes_from(block, count, at, bytes),
    }
}

/// Puts a point, where it may follow.
fn puts(block: &mut Block, time: u64, word: u64) -> Result<bool, AllocError> {
    if time / (7200 * block.unit.per_second()) != block.window as u64 {
        return Ok(false);
    }
    if let Some(last) = block.last()
        && time <= last
    {
        return Ok(false);
    }
    block.push(Point { time, word })?;
    Ok(true)
}

fn puts_reserved(block: &mut Block, time: u64, word: u64) -> Result<bool, AllocError> {
    if time / (7200 * block.unit.per_second()) != block.window as u64 {
        return Ok(false);
    }
    if let Some(last) = block.last()
        && time <= last
    {
        return Ok(false);
    }
    block.reserve()?;
    block.push_reserved(Point { time, word });
    Ok(true)
}

fn puts_each(block: &mut Block, count: u64, first: u64, word: u64) -> Result<bool, AllocError> {
    for place in 0..count {
        if !puts(block, first.saturating_add(place), word)? {
            return Ok(false);
        }
    }
    Ok(true)
}

fn ends(block: &Block, count: usize, last: Point) -> Result<bool, AllocError> {
    let points = block.points()?;
    Ok(points.len() == count && points.get(count.saturating_sub(1)) == Some(last))
}

fn has_bytes(block: &Block, count: usize, bytes: &[u8]) -> Result<bool, AllocError> {
    if block.last().is_none() || count > bytes.len() {
        return Ok(false);
    }
    Ok(block.to_bytes()?.as_slice() == &bytes[..count])
}

fn has_bytes_from(block: &Block, count: usize, at: usize, rest: &[u8]) -> Result<bool, AllocError> {
    if block.last().is_none() {
        return Ok(false);
    }
    let bytes = block.to_bytes()?;
    Ok(bytes.len() == count && at <= count && &bytes.as_slice()[at..] == rest)
}

/// Does steps on a block.
fn run(rt: &impl Abort, case: &str, block: &mut Block, steps: &[Step]) -> Result<(), AllocError> {
    for (place, step) in steps.iter().enumerate() {
        assert!(rt; does(block, *step)?, "{case}: step {place}");
    }
    Ok(())
}

/// Does steps on a new block of a window.
fn run_new(
    rt: &impl Abort,
    alloc: Global,
    case: &str,
    unit: Unit,
    window: u32,
    steps: &[Step],
) -> Result<(), AllocError> {
    assert!(rt; window <= 596522, "{case}");
    let mut block = Block::new(alloc, unit, window);
    run(rt, case, &mut block, steps)
}

#[test]
fn blocks_are_written(rt: HostRuntime) -> Result<(), Fail> {
    for (case, unit, window, steps) in WRITTEN {
        run_new(&rt, rt.alloc(), case, unit, window, steps)?;
    }
    for (unit, window, time, bits) in BORDERS {
        let steps = [
            Step::Last(None),
            Step::Put(time, 1),
            Step::Sizes(1, bits),
            Step::Last(Some(time)),
        ];
        run_new(
            &rt,
            rt.alloc(),
            "a window ends where the next begins",
            unit,
            window,
            &steps,
        )?;
    }
    Ok(())
}

/// Does steps on the block of some bytes.
fn run_read(
    rt: &impl Abort,
    alloc: Global,
    unit: Unit,
    bytes: &[u8],
    steps: &[Step],
) -> Result<(), BlockFault> {
    let mut block = Block::from_bytes(alloc, unit, bytes)?;
    run(rt, "a block is read", &mut block, steps)?;
    Ok(())
}

#[test]
fn blocks_are_read(rt: HostRuntime) -> Result<(), Fail> {
    run_read(&rt, rt.alloc(), Unit::Second, &SECONDS[..21], &READ_SECONDS)?;
    run_read(
        &rt,
        rt.alloc(),
        Unit::Milli,
        &MILLISECONDS,
        &READ_MILLISECONDS,
    )?;
    Ok(())
}

/// Does steps on a copy of a block.
fn run_copy(rt: &impl Abort, case: &str, block: &Block, steps: &[Step]) -> Result<(), AllocError> {
    let mut copy = block.copy()?;
    run(rt, case, &mut copy, steps)
}

#[test]
fn a_copy_goes_on(rt: HostRuntime) -> Result<(), Fail> {
    let mut block = Block::new(rt.alloc(), Unit::Second, 198217);
    let (_, _, _, three) = WRITTEN[0];
    run(&rt, "a block that is copied", &mut block, three)?;
    run_copy(&rt, "its copy goes on by itself", &block, &COPIED)?;
    run(&rt, "it stays", &mut block, &[Step::Bytes(21, &SECONDS)])?;
    Ok(())
}

/// The fault of some bytes; None where they are a block's.
fn fault_of(alloc: Global, unit: Unit, bytes: &[u8]) -> Option<BlockFault> {
    match Block::from_bytes(alloc, unit, bytes) {
        Ok(_) => None,
        Err(fault) => Some(fault),
    }
}

// Counts around the most points of a window, with no bits behind them.
const COUNTS: [(Unit, u32, BlockFault); 5] = [
    (Unit::Second, 0, BlockFault::Count { count: 0 }),
    (Unit::Second, 7200, BlockFault::Short { at: 0 }),
    (Unit::Second, 7201, BlockFault::Count { count: 7201 }),
    (Unit::Milli, 7_200_000, BlockFault::Short { at: 0 }),
    (
        Unit::Milli,
        7_200_001,
        BlockFault::Count { count: 7_200_001 },
    ),
];

#[test]
fn counts_have_a_limit(rt: HostRuntime) {
    for (unit, count, want) in COUNTS {
        let [a, b, c, d] = count.to_be_bytes();
        let fault = fault_of(rt.alloc(), unit, &[0, 0, 0, 0, a, b, c, d]);
        assert!(rt; fault == Some(want), "{count}");
    }
}

// The first bytes of the block of seconds, with one of them changed, and the fault.
const DAMAGED: [(usize, usize, u8, BlockFault); 17] = [
    (0, 0, 0x00, BlockFault::Short { at: 0 }),
    (7, 0, 0x00, BlockFault::Short { at: 0 }),
    (21, 1, 0x0a, BlockFault::Window { window: 656_969 }),
    (21, 7, 0x00, BlockFault::Count { count: 0 }),
    (21, 6, 0x1d, BlockFault::Count { count: 7427 }),
    (8, 0, 0x00, BlockFault::Short { at: 0 }),
    (17, 0, 0x00, BlockFault::Short { at: 14 }),
    (20, 0, 0x00, BlockFault::Short { at: 89 }),
    (21, 7, 0x04, BlockFault::Short { at: 104 }),
    (21, 18, 0x7e, BlockFault::Spelling { at: 78 }),
    (21, 19, 0x4b, BlockFault::Spelling { at: 89 }),
    (21, 20, 0x04, BlockFault::Spelling { at: 89 }),
    (21, 8, 0x71, BlockFault::Order { at: 0 }),
    (21, 18, 0x02, BlockFault::Order { at: 78 }),
    (21, 20, 0x07, BlockFault::Padding { at: 103 }),
    (22, 0, 0x00, BlockFault::Padding { at: 103 }),
    (21, 7, 0x02, BlockFault::Padding { at: 88 }),
];

// The last window that there is, and the next; a byte with the last but one of its bits set behind one point: the first bytes
// with some of them changed.
const LIMITS: [(usize, &[(usize, u8)], Option<BlockFault>); 3] = [
    (21, &[(1, 0x09), (2, 0x1a), (3, 0x2a)], None),
    (
        21,
        &[(1, 0x09), (2, 0x1a), (3, 0x2b)],
        Some(BlockFault::Window { window: 596_523 }),
    ),
    (
        18,
        &[(7, 1), (17, 0x01)],
        Some(BlockFault::Padding { at: 79 }),
    ),
];

fn change(bytes: &mut [u8], at: usize, byte: u8) {
    if at < bytes.len() {
        bytes[at] = byte;
    }
}

/// The fault of the first bytes of the block of seconds, with some of them changed.
fn fault_of_changed(alloc: Global, len: usize, changes: &[(usize, u8)]) -> Option<BlockFault> {
    let mut bytes = SECONDS;
    for (at, byte) in changes {
        change(&mut bytes, *at, *byte);
    }
    fault_of(alloc, Unit::Second, &bytes[..len.min(22)])
}

#[test]
fn damage_is_found(rt: HostRuntime) {
    for (len, at, byte, want) in DAMAGED {
        let fault = fault_of_changed(rt.alloc(), len, &[(at, byte)]);
        assert!(rt; fault == Some(want), "{byte} at {at} of {len}");
    }
    for (len, changes, want) in LIMITS {
        let fault = fault_of_changed(rt.alloc(), len, changes);
        assert!(rt; fault == want, "{changes:?} of {len}");
    }
}
