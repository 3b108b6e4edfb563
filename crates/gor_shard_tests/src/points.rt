//! Puts, gets and deletes of one lane.
use crate::steps::{Kept, STORED, Step, run};
use gor_point::{DelAnswer, PutAnswer};
use std::test::Fail;

const CASES: [(&str, &[Step]); 2] = [
    (
        "one lane puts and gets",
        &[
            Step::Get("a", 0, Kept::Absent),
            Step::Put("a", 10, 1, STORED),
            Step::Put("a", 10, 2, PutAnswer::Late { last: 10 }),
            Step::Put("a", 11, 3, STORED),
            Step::Get("a", 4, Kept::Times(&[10, 11])),
            Step::Try("a", 5, Kept::Times(&[10, 11])),
            Step::Left((1 << 40) - 6),
        ],
    ),
    (
        "a delete frees a slot",
        &[
            Step::Put("a", 10, 0, STORED),
            Step::Put("b", 20, 1, STORED),
            Step::Put("c", 30, 2, PutAnswer::Full { slots: 2 }),
            Step::Del("a", 3, DelAnswer::Gone),
            Step::Del("a", 4, DelAnswer::Absent),
            Step::Put("c", 30, 5, STORED),
            Step::Get("c", 6, Kept::Times(&[30])),
        ],
    ),
];

#[test]
fn calls_are_answered_in_their_order(rt: HostRuntime) -> Result<(), Fail> {
    for (case, steps) in CASES {
        run(&rt, rt.alloc(), case, steps)?;
    }
    Ok(())
}
