//! Tests of merges: tables of lists, and the merged list of each.
ghost use Rattle.std.specs.Prelude.{◌++◌, ◌∷◌, [], All, IfOk, OnOk, IsTrue};
ghost use Rattle.gor_merge.specs.Heads.{TimesRise};

use gor_merge::merge;
use gor_model::{Merged, Point, Points};
use std::alloc::{AllocError, Global};
use std::test::Fail;

/// A time and a word.
type Given = (u64, u64);

/// The place of a list, a time and a word.
type Wanted = (u32, u64, u64);

const ROWS: [(&str, &[&[Given]], &[Wanted]); 9] = [
    ("no list", &[], &[]),
    ("an empty list", &[&[]], &[]),
    ("empty lists", &[&[], &[], &[]], &[]),
    ("one list", &[&[(5, 1), (7, 2)]], &[(0, 5, 1), (0, 7, 2)]),
    // The merge of `b`, `a` and `c`, where `c` is absent.
    (
        "a tie, and a list that is absent",
        &[&[(10, 2)], &[(10, 1), (12, 3)], &[]],
        &[(0, 10, 2), (1, 10, 1), (1, 12, 3)],
    ),
    (
        "a list before the other",
        &[&[(8, 1), (9, 2)], &[(1, 3), (2, 4)]],
        &[(1, 1, 3), (1, 2, 4), (0, 8, 1), (0, 9, 2)],
    ),
    (
        "lists in each other",
        &[&[(1, 1), (4, 2)], &[(2, 3), (3, 4), (5, 5)]],
        &[(0, 1, 1), (1, 2, 3), (1, 3, 4), (0, 4, 2), (1, 5, 5)],
    ),
    (
        "ties of three, in order of place, whatever their words",
        &[&[(3, 9), (6, 9)], &[(3, 5), (6, 1)], &[(3, 7), (6, 5)]],
        &[
            (0, 3, 9),
            (1, 3, 5),
            (2, 3, 7),
            (0, 6, 9),
            (1, 6, 1),
            (2, 6, 5),
        ],
    ),
    (
        "the first and the last time, and five lists of which two are empty",
        &[
            &[(u64::MAX, 1)],
            &[],
            &[(0, 2), (u64::MAX, 3)],
            &[],
            &[(0, 4)],
        ],
        &[(2, 0, 2), (4, 0, 4), (0, u64::MAX, 1), (2, u64::MAX, 3)],
    ),
];

// Sixteen lists that take turns: how far each is behind the start of a turn, and the order in which a turn's points are wanted.
const TURNS: [(&str, [u8; 16], [u32; 16]); 4] = [
    (
        "one list sixteen times",
        [7; 16],
        [0, 1, 2, 3, 4, 5, 6, 7, 8, 9, 10, 11, 12, 13, 14, 15],
    ),
    (
        "one after another",
        [0, 1, 2, 3, 4, 5, 6, 7, 8, 9, 10, 11, 12, 13, 14, 15],
        [0, 1, 2, 3, 4, 5, 6, 7, 8, 9, 10, 11, 12, 13, 14, 15],
    ),
    (
        "the last list first",
        [15, 14, 13, 12, 11, 10, 9, 8, 7, 6, 5, 4, 3, 2, 1, 0],
        [15, 14, 13, 12, 11, 10, 9, 8, 7, 6, 5, 4, 3, 2, 1, 0],
    ),
    (
        "ties of four",
        [2, 0, 3, 1, 2, 0, 3, 1, 2, 0, 3, 1, 2, 0, 3, 1],
        [1, 5, 9, 13, 3, 7, 11, 15, 0, 4, 8, 12, 2, 6, 10, 14],
    ),
];

/// Whether a point is later than those before it.
fn is_later(points: &Points, point: Point) -> bool
    requires { TimesRise points.now }
    ensures { IsTrue result → TimesRise (points.now ++ point ∷ []) }
{
    match points.get(points.len().saturating_sub(1)) {
        Some(last) => last.time < point.time,
        None => true,
    }
}

/// Adds a point that is later than those before it, and no other.
fn push_later(points: &mut Points, point: Point) -> Result<(), AllocError>
    requires { TimesRise points.old }
    ensures { OnOk result (TimesRise points.new) }
{
    if !is_later(points, point) {
        return Ok(());
    }
    points.push(point)?;
    Ok(())
}

/// The points of a row, of which each is later than those before it.
fn points_of(alloc: Global, given: &[Given]) -> Result<Points, AllocError>
    ensures { IfOk result (λ points. TimesRise points) }
{
    let mut points = Points::new(alloc);
    for (time, word) in given {
        let point = Point {
            time: *time,
            word: *word,
        };
        push_later(&mut points, point)?;
    }
    Ok(points)
}

/// The lists of a row.
fn lists_of(alloc: Global, given: &[&[Given]]) -> Result<Vec<Points>, AllocError>
    ensures rising { IfOk result (λ lists. All TimesRise lists.items) }
{
    let mut lists = Vec::new(alloc);
    for list in given {
        lists.push(points_of(alloc, list)?)?;
    }
    Ok(lists)
}

/// The three points of a list that takes turns: its word is its place.
fn turns_of(alloc: Global, behind: u8, place: u64) -> Result<Points, AllocError>
    ensures { IfOk result (λ points. TimesRise points) }
{
    let first = u64::from(behind);
    points_of(
        alloc,
        &[(first, place), (first + 100, place), (first + 200, place)],
    )
}

/// Sixteen lists that take turns.
fn lists_in_turn(alloc: Global, behind: &[u8; 16]) -> Result<Vec<Points>, AllocError>
    ensures rising { IfOk result (λ lists. All TimesRise lists.items) }
{
    let mut lists = Vec::new(alloc);
    for (place, behind) in behind.iter().enumerate() {
        lists.push(turns_of(alloc, *behind, place as u64)?)?;
    }
    Ok(lists)
}

/// What a merged list holds, in the words of a row.
fn shown(merged: &Merged) -> Wanted {
    (merged.place, merged.point.time, merged.point.word)
}

/// Whether lists are merged as a row wants it.
fn merges(alloc: Global, lists: &[Points], wanted: &[Wanted]) -> Result<bool, AllocError>
    requires { All TimesRise lists.now }
{
    if lists.len() > 16 {
        return Ok(false);
    }
    let merged = merge(alloc, lists)?;
    Ok(merged.iter().map(shown).eq(wanted.iter().copied()))
}

/// What is wanted of lists that take turns: three times the order of a turn.
fn wanted_in_turn(
    alloc: Global,
    behind: &[u8; 16],
    order: &[u32; 16],
) -> Result<Vec<Wanted>, AllocError> {
    let mut wanted = Vec::new(alloc);
    for turn in 0..3 {
        for place in order {
            let first = behind.get(*place as usize).copied().unwrap_or(0);
            wanted.push((*place, 100 * turn + u64::from(first), u64::from(*place)))?;
        }
    }
    Ok(wanted)
}

#[test]
fn lists_are_merged(rt: HostRuntime) -> Result<(), Fail> {
    for (case, lists, wanted) in ROWS {
        let lists = lists_of(rt.alloc(), lists)?;
        assert!(rt; merges(rt.alloc(), &lists, wanted)?, "{case}");
    }
    Ok(())
}

#[test]
fn sixteen_lists_take_turns(rt: HostRuntime) -> Result<(), Fail> {
    for (case, behind, order) in TURNS {
        let lists = lists_in_turn(rt.alloc(), &behind)?;
        let wanted = wanted_in_turn(rt.alloc(), &behind, &order)?;
        assert!(rt; merges(rt.alloc(), &lists, &wanted)?, "{case}");
    }
    Ok(())
}
