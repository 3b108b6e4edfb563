//! What a shard recovers: two series, or none.
ghost use Rattle.std.specs.Prelude.{◌≡◌, IfOk};
ghost use Rattle.gor_model.specs.Starts.{IsStart};
ghost use Rattle.gor_recover.specs.Recovered.{recovered_start, row_of};
ghost use Rattle.gor_shard_tests.specs.Rows.{borders, one_point, row_a, row_b};

use gor_model::{Point, Points};
use gor_name::Name;
use gor_recover::{Recovered, RecoveredRow};
use std::alloc::{AllocError, Global};
use std::test::Fail;

// The name of one letter.
fn letter(alloc: Global, text: &str) -> Result<Name, Fail>
    ensures { IfOk result (λ name. name ≡ text.now) }
{
    match Name::read(alloc, text) {
        Ok(name) => Ok(name),
        Err(_) => Err(Fail::new("a name is read")),
    }
}

// A point a day behind the floor 93,600, the last time before that floor, and the floor itself.
fn border_points(alloc: Global) -> Result<Points, AllocError>
    ensures { IfOk result (λ points. points ≡ borders) }
{
    let mut points = Points::new(alloc);
    points.push(Point {
        time: 7200,
        word: 1,
    })?;
    points.push(Point {
        time: 93599,
        word: 2,
    })?;
    points.push(Point {
        time: 93600,
        word: 3,
    })?;
    Ok(points)
}

fn single_point(alloc: Global) -> Result<Points, AllocError>
    ensures { IfOk result (λ points. points ≡ one_point) }
{
    let mut points = Points::new(alloc);
    points.push(Point { time: 5, word: 4 })?;
    Ok(points)
}

// The series `a` in slot 2, under the end of window 12.
fn first_row(alloc: Global) -> Result<RecoveredRow, Fail>
    ensures { IfOk result (λ row. row_of row ≡ row_a) }
{
    Ok(RecoveredRow {
        name: letter(alloc, "a")?,
        slot: 2,
        uid: 5,
        floor: 93600,
        points: border_points(alloc)?,
    })
}

// The series `b` in slot 0, under no floor.
fn second_row(alloc: Global) -> Result<RecoveredRow, Fail>
    ensures { IfOk result (λ row. row_of row ≡ row_b) }
{
    Ok(RecoveredRow {
        name: letter(alloc, "b")?,
        slot: 0,
        uid: 6,
        floor: 0,
        points: single_point(alloc)?,
    })
}

/// Both series, under a shard's floor that is the end of window 12.
pub(crate) fn two_rows(alloc: Global) -> Result<Recovered, Fail>
    ensures { IfOk result (λ recovered. IsStart (recovered_start 3 recovered)) }
{
    let mut rows = Vec::new(alloc);
    rows.push(first_row(alloc)?)?;
    rows.push(second_row(alloc)?)?;
    Ok(Recovered {
        fresh: false,
        floor: 93600,
        next: 9,
        marks: Vec::new(alloc),
        tops: Vec::new(alloc),
        rows,
    })
}

/// No series.
pub(crate) fn no_rows(alloc: Global) -> Recovered
    ensures { IsStart (recovered_start 2 result) }
{
    Recovered {
        fresh: true,
        floor: 0,
        next: 1,
        marks: Vec::new(alloc),
        tops: Vec::new(alloc),
        rows: Vec::new(alloc),
    }
}
