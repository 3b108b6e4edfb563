//! A test of a tally that refuses memory: what it and the others took then.

ghost use Rattle.std.specs.Prelude.{◌∷◌, []};
ghost use Rattle.gor_tally.specs.declared.rule.Rule.TheVariants.{Count};
ghost use Rattle.gor_tally.specs.Tallies.{Meaning};

use crate::feeding::{Given, are, points_of};
use gor_model::{Bytes, Points};
use gor_tally::{Counter, Lowest, Tally, close_all, feed};
use std::alloc::{AllocError, Global};
use std::test::Fail;

/// A count that takes so many pages more, and no memory is there for the next one.
#[derive(Drop)]
struct Refusing {
    counter: Counter,
    pages: u32,
}

impl Tally for Refusing {
    ghost meaning = { λ t. record { rule = Count; state = t.counter ∷ [] } };

    fn take(&mut self, points: &Points) -> Result<(), AllocError> {
        self.pages = self.pages.checked_sub(1).ok_or(AllocError)?;
        self.counter.take(points)
    }

    fn close(&self, alloc: Global) -> Result<Bytes, AllocError> {
        self.counter.close(alloc)
    }
}

const POINTS: [Given; 7] = [(1, 9), (2, 8), (3, 7), (4, 6), (5, 5), (6, 4), (7, 3)];

/// A page, the pages that the second of three tallies takes, whether memory is wanting, and the texts of the three.
const CASES: [(usize, u32, bool, [&str; 3]); 5] = [
    (3, 1, true, ["count 6", "count 3", "least 0000000000000007"]),
    (2, 1, true, ["count 4", "count 2", "least 0000000000000008"]),
    (2, 0, true, ["count 2", "count 0", "least none"]),
    (
        3,
        3,
        false,
        ["count 7", "count 7", "least 0000000000000003"],
    ),
    (3, 2, true, ["count 7", "count 6", "least 0000000000000004"]),
];

/// Whether three tallies, of which the second one takes so many pages, say what is wanted.
fn three_say(
    alloc: Global,
    points: &Points,
    page: usize,
    pages: u32,
    refused: bool,
    wanted: &[&str],
) -> Result<bool, AllocError> {
    let second = Refusing {
        counter: Counter::new(),
        pages,
    };
    let mut tallies: Vec<Box<dyn Tally>> = Vec::new(alloc);
    tallies.push(Box::new(alloc, Counter::new())?)?;
    tallies.push(Box::new(alloc, second)?)?;
    tallies.push(Box::new(alloc, Lowest::new())?)?;
    let fed = feed(alloc, points, page.max(1), &mut tallies);
    let texts = close_all(alloc, tallies)?;
    Ok(fed.is_err() == refused && texts.len() == 3 && are(&texts, wanted))
}

#[test]
fn some_first_pages_stay(rt: HostRuntime) -> Result<(), Fail> {
    let points = points_of(rt.alloc(), &POINTS)?;
    for (page, pages, refused, wanted) in CASES {
        assert!(rt;
            three_say(rt.alloc(), &points, page, pages, refused, &wanted)?,
            "a page of {page}, refused after {pages}"
        );
    }
    Ok(())
}
