//! Feeding: points to boxed tallies, a page at a time, and the text of each.

ghost use Rattle.std.specs.Prelude.{◌≡◌, ◌≤◌, map, take, OnOk, OnErr, IfOk};
ghost use Rattle.gor_tally.specs.Tallies.{Meaning, stepped, text};
ghost use Rattle.gor_tally.specs.Feeding.{IsFedInPart, IsGivenInPart};

use crate::tally::Tally;
use gor_model::{Bytes, Point, Points};
use std::alloc::{AllocError, Global};

/// Gives points to each tally in order, in pages of at most `page` points, of which there is at least one in a page.
///
/// After want of memory each tally took some first pages of the points, and some first tallies one page more. A page is copied
/// once, whatever the count of tallies, and let go before the next one.
pub fn feed(
    alloc: Global,
    points: &Points,
    page: usize,
    tallies: &mut Vec<Box<dyn Tally>>,
) -> Result<(), AllocError>
    requires { 1 ≤ page }
    ensures ok { OnOk result (map (λ b. meaning b) tallies.new.items ≡ map (stepped points.now) (map (λ b. meaning b) tallies.old.items)) }
    ensures err { OnErr result (IsFedInPart page points.now (map (λ b. meaning b) tallies.old.items) (map (λ b. meaning b) tallies.new.items)) }
{
    let points = points.as_slice();
    let mut fed = 0;
    while fed < points.len() {
        let (_, rest) = points.split_at(fed);
        let next = first_of(alloc, rest, page)?;
        give(&next, tallies)?;
        fed += next.len();
    }
    Ok(())
}

/// A copy of the first points, at most so many.
fn first_of(alloc: Global, points: &[Point], page: usize) -> Result<Points, AllocError>
    ensures { IfOk result (λ first. first ≡ take page points.now) }
{
    let (first, _) = points.split_at(page.min(points.len()));
    let mut copy = Points::with_room(alloc, first.len())?;
    for point in first {
        copy.push(*point)?;
    }
    Ok(copy)
}

/// Gives a page to each tally in order.
fn give(page: &Points, tallies: &mut Vec<Box<dyn Tally>>) -> Result<(), AllocError>
    ensures ok { OnOk result (map (λ b. meaning b) tallies.new.items ≡ map (stepped page.now) (map (λ b. meaning b) tallies.old.items)) }
    ensures err { OnErr result (IsGivenInPart page.now (map (λ b. meaning b) tallies.old.items) (map (λ b. meaning b) tallies.new.items)) }
{
    for at in 0..tallies.len() {
        give_one(page, &mut tallies[at])?;
    }
    Ok(())
}

/// Gives a page to one tally.
fn give_one(page: &Points, tally: &mut Box<dyn Tally>) -> Result<(), AllocError>
    ensures ok { OnOk result (meaning tally.new ≡ stepped page.now (meaning tally.old)) }
    ensures err { OnErr result (meaning tally.new ≡ meaning tally.old) }
{
    tally.take(page)
}

/// The text of each tally in order. It drops each box once, also where memory is wanting.
pub fn close_all(alloc: Global, tallies: Vec<Box<dyn Tally>>) -> Result<Vec<Bytes>, AllocError>
    ensures { IfOk result (λ lines. lines.items ≡ map (λ b. text (meaning b).rule (meaning b).state) tallies.items) }
{
    let mut lines = Vec::with_capacity(alloc, tallies.len())?;
    for tally in &tallies {
        lines.push(close_one(alloc, tally)?)?;
    }
    Ok(lines)
}

/// The text of one tally.
fn close_one(alloc: Global, tally: &Box<dyn Tally>) -> Result<Bytes, AllocError>
    ensures { IfOk result (λ line. line ≡ text (meaning tally.now).rule (meaning tally.now).state) }
{
    tally.close(alloc)
}
