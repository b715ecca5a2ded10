//! Lines of what is left over.
use crate::host_lines::TWO_NODES;
use crate::line_answers::{answers, opened};
use std::test::*;

// What is left over, with the first fault of each that is not taken.
const LEFT_OVER: &[(&str, &str)] = &[
    (
        "stale-path b 224.1.1.1/17/1 10.0.0.1:1 b1 10.0.0.1 1/1/inf/1/1 157500",
        "taken",
    ),
    (
        "stale-path b 224.1.1.1/17/1 10.0.0.1:2 b1 10.0.0.1 1/1/inf/1/1 1",
        "taken",
    ),
    (
        "stale-blockade b 224.1.1.1/17/1 hop b1 10.0.0.1 2 1/1/inf/1/1 120000",
        "taken",
    ),
    (
        "stale-blockade b 224.1.1.1/17/1 sender 10.0.0.1:1 3 1/1/inf/1/1 1",
        "taken",
    ),
    // The period is 30,000: 157,500 is the most of a path, 120,000 of a blockade.
    (
        "stale-path b 224.1.1.1/17/1 10.0.0.1:3 b1 10.0.0.1 1/1/inf/1/1 157501",
        "range",
    ),
    (
        "stale-blockade b 224.1.1.1/17/1 hop b1 10.0.0.1 4 1/1/inf/1/1 1",
        "range",
    ),
    // An end of another node.
    (
        "stale-path b 224.1.1.1/17/1 10.0.0.1:3 a1 10.0.0.1 1/1/inf/1/1 1",
        "name",
    ),
    (
        "stale-path b 224.1.1.1/17/1 10.0.0.1:2 b1 10.0.0.9 9/9/inf/1/1 9",
        "twice",
    ),
    ("node c", "late"),
];

#[test]
fn paths_and_blockades_are_left_over(rt: HostRuntime) -> Result<(), Fail> {
    let mut checker = opened(rt.alloc(), TWO_NODES)?;
    answers(&mut checker, LEFT_OVER)
}
