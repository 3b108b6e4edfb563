//! Points and lists of points.
ghost use Rattle.std.specs.Prelude.{◌≡◌, [], ◌∷◌, ◌++◌, length, slice_get, OnOk, OnErr, IfOk, filter};
ghost use Rattle.gor_model.specs.Windows.{kept};
ghost use Rattle.gor_model.specs.Answers.{in_range};

use std::alloc::{AllocError, Global};
use std::marker::Model;

/// A 64-bit word at a time, in the store's unit since 1970-01-01 00:00:00 UTC. A word is only compared as an unsigned
/// number; dashboards read it as a double.
#[derive(Clone, Copy, Debug, PartialEq, Eq)]
pub struct Point {
    pub time: u64,
    pub word: u64,
}

/// A list of points. Contracts see the list.
#[derive(Drop)]
pub struct Points {
    items: Vec<Point>,
}

impl Model for Points {
    ghost use Rattle.std.specs.Prelude.{List};
    ghost use Rattle.gor_model.specs.declared.point.Point.{Point};

    ghost Value = { List Point };

    ghost view = { λ p. p.items.items };
}

impl Points {
    /// No points. It takes no memory.
    pub fn new(alloc: Global) -> Self
        ensures { result ≡ [] }
    {
        Points {
            items: Vec::new(alloc),
        }
    }

    /// No points, with room for `count` of them: so many pushes take no memory. It answers `AllocError` where memory is wanting.
    pub fn with_room(alloc: Global, count: usize) -> Result<Self, AllocError>
        ensures { IfOk result (λ points. points ≡ []) }
    {
        Ok(Points {
            items: Vec::with_capacity(alloc, count)?,
        })
    }

    /// The points in order.
    pub fn as_slice(&self) -> &[Point]
        ensures { result.now ≡ self.now }
    {
        &self.items
    }

    /// How many points there are.
    pub fn len(&self) -> usize
        ensures { result ≡ length self.now }
    {
        self.items.len()
    }

    /// The point at a place from 0; `None` exactly past the end.
    pub fn get(&self, at: usize) -> Option<Point>
        ensures { result ≡ slice_get self.now at }
    {
        self.items.get(at).copied()
    }

    /// Adds a point at the end. The list is unchanged where memory is wanting.
    pub fn push(&mut self, point: Point) -> Result<(), AllocError>
        ensures ok { OnOk result (self.new ≡ self.old ++ point ∷ []) }
        ensures err { OnErr result (self.new ≡ self.old) }
    {
        self.items.push(point)?;
        Ok(())
    }
}

/// The points of the times `from` to `to`, both included, that are kept under a floor: those at most a day older than it.
pub fn kept_in_range(
    alloc: Global,
    floor: u64,
    from: u64,
    to: u64,
    points: &Points,
) -> Result<Points, AllocError>
    ensures { IfOk result (λ found. found ≡ filter (in_range from to) (kept floor points.now)) }
{
    let mut found = Points::new(alloc);
    for point in points.items.iter() {
        if floor.saturating_sub(point.time) <= 86400 && from <= point.time && point.time <= to {
            found.push(*point)?;
        }
    }
    Ok(found)
}

/// The points of the times `from` to `to`, both included, in order.
pub fn between(alloc: Global, from: u64, to: u64, points: &Points) -> Result<Points, AllocError>
    ensures { IfOk result (λ found. found ≡ filter (in_range from to) points.now) }
{
    let mut found = Points::new(alloc);
    for point in points.items.iter() {
        if from <= point.time && point.time <= to {
            found.push(*point)?;
        }
    }
    Ok(found)
}

/// A point of a merged list, with the place, from 0, of the list that it came from.
#[derive(Clone, Copy, Debug, PartialEq, Eq)]
pub struct Merged {
    pub place: u32,
    pub point: Point,
}
