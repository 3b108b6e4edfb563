//! Tests of the four tallies: tables of points, and the four texts of each.

use gor_model::{Bytes, Point, Points};
use gor_tally::{Counter, Highest, Latest, Lowest, Tally, close_all, feed};
use std::alloc::{AllocError, Global};
use std::test::Fail;

/// A time and a word.
pub(crate) type Given = (u64, u64);

/// What is fed, list after list, and the texts of the count, the least and the greatest word and the last point.
type Case = (&'static str, &'static [&'static [Given]], [&'static str; 4]);

const CASES: [Case; 7] = [
    // The points of `b` and `a`, and `c` is absent.
    (
        "three names, of which one is absent",
        &[&[(10, 2)], &[(10, 1), (12, 3)], &[]],
        [
            "count 3",
            "least 0000000000000001",
            "greatest 0000000000000003",
            "last 12:0000000000000003",
        ],
    ),
    (
        "no point",
        &[&[]],
        ["count 0", "least none", "greatest none", "last none"],
    ),
    (
        "nothing fed",
        &[],
        ["count 0", "least none", "greatest none", "last none"],
    ),
    (
        "of points of one time the first is the last one",
        &[&[(5, 7), (5, 9), (5, 8)], &[(5, 10)]],
        [
            "count 4",
            "least 0000000000000007",
            "greatest 000000000000000a",
            "last 5:0000000000000007",
        ],
    ),
    (
        "a later list with earlier times",
        &[&[(8, 1), (9, 16)], &[(1, 3), (2, 4), (3, 5)]],
        [
            "count 5",
            "least 0000000000000001",
            "greatest 0000000000000010",
            "last 9:0000000000000010",
        ],
    ),
    (
        "the last point of the last short page tells",
        &[&[(1, 5), (2, 5), (3, 5), (4, 5), (5, 2)]],
        [
            "count 5",
            "least 0000000000000002",
            "greatest 0000000000000005",
            "last 5:0000000000000002",
        ],
    ),
    (
        "the greatest time and word",
        &[&[(0, 0), (u64::MAX, u64::MAX)]],
        [
            "count 2",
            "least 0000000000000000",
            "greatest ffffffffffffffff",
            "last 18446744073709551615:ffffffffffffffff",
        ],
    ),
];

// Pages of one point, shorter than a list, of the exact length of some list, and longer than each.
const PAGES: [usize; 5] = [1, 2, 3, 5, 1024];

/// The points of a list.
pub(crate) fn points_of(alloc: Global, given: &[Given]) -> Result<Points, AllocError> {
    let mut points = Points::new(alloc);
    for (time, word) in given {
        points.push(Point {
            time: *time,
            word: *word,
        })?;
    }
    Ok(points)
}

/// Feeds list after list.
fn feed_lists(
    alloc: Global,
    lists: &[&[Given]],
    page: usize,
    tallies: &mut Vec<Box<dyn Tally>>,
) -> Result<(), AllocError> {
    for list in lists {
        feed(alloc, &points_of(alloc, list)?, page.max(1), tallies)?;
    }
    Ok(())
}

/// Whether these are the wanted texts, over and over.
pub(crate) fn are(texts: &[Bytes], wanted: &[&str]) -> bool {
    texts.iter().map(Bytes::as_slice).eq(
        wanted
            .iter()
            .cycle()
            .take(texts.len())
            .map(|text| text.as_bytes()),
    )
}

/// Whether so many times four tallies say what is wanted.
fn tallies_say(
    alloc: Global,
    times: usize,
    lists: &[&[Given]],
    page: usize,
    wanted: &[&str],
) -> Result<bool, AllocError> {
    let mut tallies: Vec<Box<dyn Tally>> = Vec::new(alloc);
    for _ in 0..times {
        tallies.push(Box::new(alloc, Counter::new())?)?;
        tallies.push(Box::new(alloc, Lowest::new())?)?;
        tallies.push(Box::new(alloc, Highest::new())?)?;
        tallies.push(Box::new(alloc, Latest::new())?)?;
    }
    feed_lists(alloc, lists, page, &mut tallies)?;
    let texts = close_all(alloc, tallies)?;
    Ok(texts.len() / 4 == times && are(&texts, wanted))
}

/// Whether four tallies, and sixteen, say what is wanted, whatever the page.
fn each_page_says(alloc: Global, lists: &[&[Given]], wanted: &[&str]) -> Result<bool, AllocError> {
    for page in PAGES {
        if !tallies_say(alloc, 1, lists, page, wanted)? {
            return Ok(false);
        }
    }
    tallies_say(alloc, 4, lists, 2, wanted)
}

#[test]
fn tallies_take_points(rt: HostRuntime) -> Result<(), Fail> {
    for (case, lists, wanted) in CASES {
        assert!(rt; each_page_says(rt.alloc(), lists, &wanted)?, "{case}");
    }
    Ok(())
}
