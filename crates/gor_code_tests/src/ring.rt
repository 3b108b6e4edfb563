//! Tests of rings: what is done to a ring, step by step, with what is wanted of each step.
use gor_ring::Ring;
use std::process::Abort;

#[derive(Clone, Copy)]
enum Step {
    /// The first window.
    First(u32),
    /// Makes a window the first.
    Advance(u32),
    /// Puts ten times a window at it: what stood there.
    Put(u32, Option<u32>),
    /// What stands at a window.
    Get(u32, Option<u32>),
}

// What stood at a window is given back.
const GIVEN: [Step; 8] = [
    Step::Advance(7),
    Step::Put(18, None),
    Step::Put(7, None),
    Step::Put(18, Some(180)),
    Step::Get(6, None),
    Step::Get(7, Some(70)),
    Step::Get(18, Some(180)),
    Step::Get(19, None),
];

/// Whether a step does what is wanted of it.
fn does(ring: &mut Ring<u32>, step: Step) -> bool {
    match step {
        Step::First(first) => ring.first() == first,
        Step::Advance(first) => advances(ring, first),
        Step::Put(window, before) => puts(ring, window, before),
        Step::Get(window, item) => ring.get(window).copied() == item,
    }
}

/// Advances where that is no step back.
fn advances(ring: &mut Ring<u32>, first: u32) -> bool {
    if ring.first() > first {
        return false;
    }
    ring.advance(first);
    true
}

fn puts(ring: &mut Ring<u32>, window: u32, before: Option<u32>) -> bool {
    let first = ring.first();
    if window < first || window - first >= 12 {
        return false;
    }
    ring.put(window, window.saturating_mul(10)) == before
}

/// Does steps on a ring.
fn run(rt: &impl Abort, case: &str, ring: &mut Ring<u32>, steps: &[Step]) {
    for (place, step) in steps.iter().enumerate() {
        assert!(rt; does(ring, *step), "{case}: step {place}");
    }
}

#[test]
fn begins_with_no_items(rt: HostRuntime) {
    let mut ring = Ring::new();
    run(&rt, "a new ring", &mut ring, &[Step::First(0)]);
    for window in 0..24 {
        run(
            &rt,
            "a new ring's items",
            &mut ring,
            &[Step::Get(window, None)],
        );
    }
}

#[test]
fn gives_what_stood_there(rt: HostRuntime) {
    let mut ring = Ring::new();
    run(&rt, "what stood there", &mut ring, &GIVEN);
}

/// Whether just the last twelve windows up to one have their items.
fn has_last_twelve(ring: &Ring<u32>, last: u32) -> bool {
    for window in 0..52 {
        let kept = window <= last && window + 11 >= last;
        let want = if kept { Some(10 * window) } else { None };
        if ring.get(window).copied() != want {
            return false;
        }
    }
    true
}

#[test]
fn keeps_the_last_twelve_over_several_turns(rt: HostRuntime) {
    let mut ring = Ring::new();
    for window in 0..40 {
        let steps = [
            Step::Advance(u32::saturating_sub(window, 11)),
            Step::Put(window, None),
        ];
        run(&rt, "several turns", &mut ring, &steps);
        assert!(rt; has_last_twelve(&ring, window), "{window}");
    }
}

// The windows 3, 9 and 11 are there. Behind each new first, those that are left.
const LEFT: [(u32, [bool; 3]); 8] = [
    (0, [true, true, true]),
    (3, [true, true, true]),
    (4, [false, true, true]),
    (9, [false, true, true]),
    (10, [false, false, true]),
    (11, [false, false, true]),
    (12, [false, false, false]),
    (4294967295, [false, false, false]),
];

fn are_left(ring: &Ring<u32>, left: [bool; 3]) -> bool {
    let [three, nine, eleven] = left;
    ring.get(3).is_some() == three
        && ring.get(9).is_some() == nine
        && ring.get(11).is_some() == eleven
}

#[test]
fn advances_by_any_count(rt: HostRuntime) {
    for (first, left) in LEFT {
        let mut ring = Ring::new();
        let steps = [
            Step::Put(3, None),
            Step::Put(9, None),
            Step::Put(11, None),
            Step::Advance(first),
        ];
        run(&rt, "three windows", &mut ring, &steps);
        assert!(rt; are_left(&ring, left), "from {first}");
    }
}
