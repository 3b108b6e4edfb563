//! Cells: a day of points a minute apart, put under a floor that rises, copied and decoded.
ghost use Rattle.std.specs.Prelude.{◌≤◌, ◌<◌};
ghost use Rattle.gor_model.specs.Windows.{greatest_time};

use crate::blocks::{sum_with, time_of};
use crate::fault::Fault;
use crate::report::{Spent, nanos_since, now, print_row, tenths};
use crate::words::{KINDS, Kind, Series, sum_of};
use gor_block::Block;
use gor_cell::{BoxedBlock, Cell, CellPut, Copied, LiveCell, SealedRing};
use gor_model::Unit;
use gor_name::{Name, NameFault};
use gor_ring::Ring;
use std::alloc::Global;
use std::mem::size_of;
use std::time::Clock;

/// The points of a window, and the windows of a day.
const POINTS: usize = 120;

const WINDOWS: u32 = 12;

/// The points of a day.
const DAY: usize = 1440;

/// The cells that are filled before they are read, and how often that is done.
const CELLS: usize = 100;

const ROUNDS: u32 = 20;

/// A live cell with no points, under the floor 0.
fn cell_of(alloc: Global) -> Result<Cell, Fault> {
    let name = match Name::read(alloc, "load.of.one.machine") {
        Ok(name) => name,
        Err(NameFault::NoMemory) => return Err(Fault::Memory),
        Err(_) => return Err(Fault::Wrong),
    };
    let mut cell = Cell::vacant(alloc);
    cell.occupy(name, 1, 0);
    Ok(cell)
}

/// New cells in place of those of the list.
fn fill_cells(alloc: Global, cells: &mut Vec<Cell>) -> Result<(), Fault> {
    cells.clear();
    for _ in 0..CELLS {
        cells.push(cell_of(alloc)?)?;
    }
    Ok(())
}

/// Makes room for a point, and puts it.
fn put_point(cell: &mut Cell, time: u64, word: u64) -> Result<(), Fault>
    requires { time ≤ greatest_time }
{
    if !cell.is_live() {
        return Err(Fault::Wrong);
    }
    cell.reserve_put(time)?;
    match cell.put_reserved(time, word) {
        CellPut::Stored => Ok(()),
        _ => Err(Fault::Wrong),
    }
}

/// Puts the points of a window in each cell.
fn put_windows(cells: &mut [Cell], window: u32, words: &[u64]) -> Result<(), Fault>
    requires { window < 12 }
{
    for cell in cells {
        for step in 0..POINTS {
            let word = words.get(step).copied().unwrap_or(0);
            put_point(cell, time_of(window, step), word)?;
        }
    }
    Ok(())
}

/// Seals one window of each cell, and drops the copies that a seal gives.
fn seal_windows(cells: &mut [Cell], window: u32) -> Result<(), Fault>
    requires { window < 12 }
{
    for cell in cells {
        if !cell.is_live() || cell.floor() > window as u64 * 7200 {
            return Err(Fault::Wrong);
        }
        cell.seal(window, window)?;
    }
    Ok(())
}

/// Gives each cell the same day, and seals each window but the last once it is put. It answers the nanoseconds of the puts.
fn put_days<R: Clock>(rt: &R, cells: &mut [Cell], words: &[u64]) -> Result<u64, Fault> {
    let mut nanos = 0u64;
    let mut rest = words;
    for window in 0..WINDOWS {
        let (here, later) = rest.split_at(POINTS.min(rest.len()));
        rest = later;
        let begin = now(rt)?;
        put_windows(cells, window, here)?;
        nanos = nanos.saturating_add(nanos_since(rt, begin)?);
        if window < WINDOWS - 1 {
            seal_windows(cells, window)?;
        }
    }
    Ok(nanos)
}

/// A copy of each cell's day.
fn copy_days(copies: &mut Vec<Copied>, cells: &[Cell]) -> Result<(), Fault> {
    for cell in cells {
        if !cell.is_live() {
            return Err(Fault::Wrong);
        }
        copies.push(cell.copy_range(0, 86_399)?)?;
    }
    Ok(())
}

/// Decodes each day, and compares it with what all days make.
fn read_days(copies: &mut Vec<Copied>, wanted: u64) -> Result<(), Fault> {
    for _ in 0..CELLS {
        let Some(copied) = copies.pop() else {
            return Err(Fault::Wrong);
        };
        if sum_with(&copied.points()?, 0) != wanted {
            return Err(Fault::Wrong);
        }
    }
    Ok(())
}

/// The bytes of a block's box, and those that its bits lie in, with those for later bits.
fn bytes_behind(kept: BoxedBlock) -> u64 {
    let block = Box::into_inner(kept.boxed);
    (size_of::<Block>() as u64).saturating_add(block.bits.into_bytes().capacity() as u64)
}

fn bytes_of_later(blocks: Vec<BoxedBlock>) -> u64 {
    let mut bytes = blocks.capacity() as u64 * size_of::<BoxedBlock>() as u64;
    for block in blocks {
        bytes = bytes.saturating_add(bytes_behind(block));
    }
    bytes
}

/// The ring's own bytes and those behind its blocks, in the place of each of which a block with no points is left.
fn bytes_of_ring(alloc: Global, mut ring: Ring<BoxedBlock>) -> Result<u64, Fault> {
    let mut bytes = size_of::<Ring<BoxedBlock>>() as u64;
    for window in 0..WINDOWS {
        if ring.first() > 0 {
            return Err(Fault::Wrong);
        }
        let boxed = Box::new(alloc, Block::new(alloc, Unit::Second, window))?;
        if let Some(block) = ring.put(window, BoxedBlock { boxed }) {
            bytes = bytes.saturating_add(bytes_behind(block));
        }
    }
    Ok(bytes)
}

fn bytes_of_sealed(alloc: Global, sealed: SealedRing) -> Result<u64, Fault> {
    match sealed.ring {
        Some(ring) => bytes_of_ring(alloc, Box::into_inner(ring)),
        None => Ok(0),
    }
}

/// The bytes that a cell lies in: its own, and those that are on the heap.
fn bytes_of(alloc: Global, cell: Cell) -> Result<u64, Fault> {
    let Some(live) = cell.live else {
        return Err(Fault::Wrong);
    };
    let LiveCell {
        name,
        uid: _,
        floor: _,
        later,
        sealed,
    } = live;
    let own = (size_of::<Cell>() + name.text().len() + name.key().len()) as u64;
    let sealed = bytes_of_sealed(alloc, sealed)?;
    Ok(
        own.saturating_add(bytes_of_later(later))
            .saturating_add(sealed),
    )
}

fn bytes_of_all(alloc: Global, cells: &mut Vec<Cell>) -> Result<u64, Fault> {
    let mut bytes = 0u64;
    for _ in 0..CELLS {
        let Some(cell) = cells.pop() else {
            return Err(Fault::Wrong);
        };
        bytes = bytes.saturating_add(bytes_of(alloc, cell)?);
    }
    Ok(bytes)
}

/// One round: all cells are filled, copied, decoded and weighed.
fn round<R: Clock>(
    rt: &R,
    alloc: Global,
    cells: &mut Vec<Cell>,
    copies: &mut Vec<Copied>,
    words: &[u64],
) -> Result<Spent, Fault> {
    fill_cells(alloc, cells)?;
    let write = put_days(rt, cells, words)?;
    let begin = now(rt)?;
    copy_days(copies, cells)?;
    let copy = nanos_since(rt, begin)?;
    let wanted = sum_of(words, 0, 60, u64::MAX);
    let begin = now(rt)?;
    read_days(copies, wanted)?;
    let read = nanos_since(rt, begin)?;
    let size = bytes_of_all(alloc, cells)?;
    Ok(Spent {
        write,
        copy,
        read,
        size,
    })
}

/// A row: all rounds of the words of a kind.
fn measure_words<R: Clock + Print>(
    rt: &R,
    alloc: Global,
    label: &str,
    kind: Kind,
    cells: &mut Vec<Cell>,
    words: &mut Vec<u64>,
) -> Result<(), Fault> {
    let mut copies = Vec::new(alloc);
    let mut series = Series::new(kind);
    let mut spent = Spent::new();
    for _ in 0..ROUNDS {
        series.fill(words, DAY)?;
        spent = spent.with(round(rt, alloc, cells, &mut copies, words)?);
    }
    let days = CELLS as u64;
    let points = DAY as u64 * days;
    let bytes = tenths(spent.size, points * ROUNDS as u64);
    let (copy, read) = (tenths(spent.copy, days), tenths(spent.read, days));
    let figures = [bytes, tenths(spent.write, points), copy, read];
    print_row(rt, label, &[], &figures)
}

/// Days of words of each kind.
pub fn measure<R: Clock + Print>(rt: &R, alloc: Global) -> Result<(), Fault> {
    let (mut cells, mut words) = (Vec::new(alloc), Vec::new(alloc));
    let columns = [
        "bytes a point",
        "ns a put",
        "ns a day copied",
        "ns a day decoded",
    ];
    print_row(rt, "cell", &columns, &[])?;
    for (kind, label) in KINDS {
        measure_words(rt, alloc, label, kind, &mut cells, &mut words)?;
    }
    Ok(())
}
