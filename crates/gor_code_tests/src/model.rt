//! Tests of points.
use gor_model::{Point, Points, between, kept_in_range};
use std::alloc::{AllocError, Global};

const EARLY: Point = Point {
    time: 7199,
    word: 1,
};

const LATE: Point = Point {
    time: 7200,
    word: 2,
};

fn two_points(alloc: Global) -> Result<Points, AllocError> {
    let mut points = Points::with_room(alloc, 2)?;
    points.push(EARLY)?;
    points.push(LATE)?;
    Ok(points)
}

/// Whether a list has this one point.
fn has_one(points: &Points, want: Point) -> bool {
    points.len() == 1 && points.get(0) == Some(want) && points.get(1).is_none()
}

#[test]
fn a_day_behind_the_floor_is_kept(rt: HostRuntime) -> Result<(), AllocError> {
    let points = two_points(rt.alloc())?;
    let found = kept_in_range(rt.alloc(), 93600, 0, 99999, &points)?;
    assert!(rt; has_one(&found, LATE));
    Ok(())
}

#[test]
fn a_range_has_both_its_ends(rt: HostRuntime) -> Result<(), AllocError> {
    let points = two_points(rt.alloc())?;
    let found = between(rt.alloc(), 7199, 7200, &points)?;
    assert!(rt; found.len() == 2);
    Ok(())
}
