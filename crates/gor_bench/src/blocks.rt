//! Blocks of two hours with a point a minute: pushed point by point, and decoded.
ghost use Rattle.std.specs.Prelude.{◌≡◌, ◌+◌, ◌*◌, ◌<◌, ◌≤◌, OnOk};
ghost use Rattle.gor_model.specs.Windows.{last_window};
ghost use Rattle.gor_bench.specs.Steps.{IsBlockBefore};

use crate::fault::Fault;
use crate::report::{Spent, nanos_since, now, print_row, tenths};
use crate::words::{KINDS, Kind, Series, sum_of};
use gor_block::Block;
use gor_model::{Point, Points, Unit};
use std::alloc::{AllocError, Global};
use std::time::Clock;

/// The points of a block.
const POINTS: usize = 120;

/// The blocks that are pushed before they are decoded, and how often that is done: ten million points and a few more.
const BLOCKS: u32 = 1000;

const ROUNDS: u32 = 84;

/// Puts the point of a step of a block's window.
#[tactic(auto, using(crate::proofs::BlockSteps::may_follow))]
pub fn push_point(block: &mut Block, window: u32, step: usize, word: u64) -> Result<(), AllocError>
    requires before { IsBlockBefore block.old window step }
    requires inside { step < 120 }
    ensures { OnOk result (IsBlockBefore block.new window (step + 1)) }
{
    block.push(Point {
        time: time_of(window, step),
        word,
    })
}

/// The time of a step of a window, a minute a step.
pub fn time_of(window: u32, step: usize) -> u64
    requires { step < 120 }
    ensures { result ≡ window * 7200 + 60 * step }
{
    window as u64 * 7200 + 60 * step as u64
}

/// A block of a window, with a point for each of its words, of which there are at most 120.
pub fn block_of(alloc: Global, window: u32, words: &[u64]) -> Result<Block, AllocError>
    requires { window ≤ last_window }
{
    let mut block = Block::new(alloc, Unit::Second, window);
    let mut step = 0;
    while step < POINTS {
        let Some(word) = words.get(step) else {
            return Ok(block);
        };
        push_point(&mut block, window, step, *word)?;
        step += 1;
    }
    Ok(block)
}

/// A block for each 120 words, in windows from 0 on.
fn push_blocks(blocks: &mut Vec<Block>, alloc: Global, words: &[u64]) -> Result<(), AllocError> {
    let mut window = 0u32;
    for chunk in words.chunks(POINTS) {
        blocks.push(block_of(alloc, window % BLOCKS, chunk)?)?;
        window = window.saturating_add(1);
    }
    Ok(())
}

/// What points make together with those before them.
pub fn sum_with(points: &Points, sum: u64) -> u64 {
    let mut sum = sum;
    for point in points.as_slice() {
        sum = sum.rotate_left(1) ^ point.time.wrapping_add(point.word);
    }
    sum
}

/// What the points of all blocks make together.
fn read_blocks(blocks: &[Block]) -> Result<u64, AllocError> {
    let mut sum = 0;
    for block in blocks {
        sum = sum_with(&block.points()?, sum);
    }
    Ok(sum)
}

/// The bytes that a block is written in. A block with no points has none.
#[tactic(auto, using(crate::proofs::BlockSteps::some_point))]
pub fn bytes_of(block: &Block) -> Result<Vec<u8>, Fault> {
    let Some(_) = block.last() else {
        return Err(Fault::Wrong);
    };
    Ok(block.to_bytes()?)
}

/// How many bytes all blocks are written in.
fn length_of_all(blocks: &[Block]) -> Result<u64, Fault> {
    let mut length = 0u64;
    for block in blocks {
        length = length.saturating_add(bytes_of(block)?.len() as u64);
    }
    Ok(length)
}

/// Pushes and decodes all blocks.
fn round<R: Clock>(
    rt: &R,
    alloc: Global,
    blocks: &mut Vec<Block>,
    words: &[u64],
) -> Result<Spent, Fault> {
    blocks.clear();
    let begin = now(rt)?;
    push_blocks(blocks, alloc, words)?;
    let write = nanos_since(rt, begin)?;
    let begin = now(rt)?;
    let sum = read_blocks(blocks)?;
    let read = nanos_since(rt, begin)?;
    if sum != sum_of(words, 0, 60, u64::MAX) {
        return Err(Fault::Wrong);
    }
    let size = length_of_all(blocks)?;
    Ok(Spent {
        write,
        copy: 0,
        read,
        size,
    })
}

/// A row: all rounds of the words of a kind.
fn measure_words<R: Clock + Print>(
    rt: &R,
    alloc: Global,
    label: &str,
    kind: Kind,
    blocks: &mut Vec<Block>,
    words: &mut Vec<u64>,
) -> Result<(), Fault> {
    let mut series = Series::new(kind);
    let mut spent = Spent::new();
    for _ in 0..ROUNDS {
        series.fill(words, POINTS * BLOCKS as usize)?;
        spent = spent.with(round(rt, alloc, blocks, words)?);
    }
    let points = POINTS as u64 * BLOCKS as u64;
    let bytes = tenths(spent.size, points * ROUNDS as u64);
    let figures = [
        bytes,
        tenths(spent.write, points),
        tenths(spent.read, points),
    ];
    print_row(rt, label, &[], &figures)
}

/// Blocks of words of each kind.
pub fn measure<R: Clock + Print>(rt: &R, alloc: Global) -> Result<(), Fault> {
    let mut words = Vec::new(alloc);
    let mut blocks = Vec::with_capacity(alloc, BLOCKS as usize)?;
    print_row(
        rt,
        "blocks",
        &["bytes a point", "ns a push", "ns a point read"],
        &[],
    )?;
    for (kind, label) in KINDS {
        measure_words(rt, alloc, label, kind, &mut blocks, &mut words)?;
    }
    Ok(())
}
