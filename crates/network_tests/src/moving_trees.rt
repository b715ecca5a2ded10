//! Trees that move.
use crate::line_answers::{answers, closes, moved, opened};
use std::test::*;

// Two ways from a node to another, of which a tree has the first.
const TWO_WAYS: &[&str] = &[
    "node s",
    "node p",
    "node q",
    "node t",
    "end s1 s 10.0.1.1 10000 1500",
    "end p1 p 10.0.1.2 10000 1500",
    "end p2 p 10.0.2.1 10000 1500",
    "end t1 t 10.0.2.2 10000 1500",
    "end s2 s 10.0.3.1 10000 1500",
    "end q1 q 10.0.3.2 10000 1500",
    "end q2 q 10.0.4.1 10000 1500",
    "end t2 t 10.0.4.2 10000 1500",
    "link s1 p1",
    "link p2 t1",
    "link s2 q1",
    "link q2 t2",
    "hop 239.1.1.1 10.0.1.1 s1 p1",
    "hop 239.1.1.1 10.0.1.1 p2 t1",
];

// The tree moves away and back.
const BACK: &[(&str, &str)] = &[
    // No tree at all, and then the first one again: a tree that has no hop any more is still one of a `hop` line.
    ("reroute 239.1.1.1 10.0.1.1", "taken"),
    ("reroute 239.1.1.1 10.0.1.1 s1 p1 p2 t1", "taken"),
    ("hop 239.1.1.1 10.0.1.1 s2 q1", "late"),
];

// Trees that cannot move so, with their first fault.
const FAULTS: &[(&str, &str)] = &[
    // A pair of which one word is missing.
    ("reroute 239.1.1.1 10.0.1.1 s2", "word"),
    ("reroute 10.0.1.1 10.0.1.1 z1 z2", "range"),
    ("reroute 239.1.1.1 10.0.1.1 s2 z1", "name"),
    // No end has the address.
    ("reroute 239.1.1.1 10.9.9.9 s2 q1", "name"),
    // No `hop` line is of this tree, whose hops would be none either.
    ("reroute 239.1.1.1 10.0.3.1 q2 t2", "name"),
    // The tree has not reached the node.
    ("reroute 239.1.1.1 10.0.1.1 q2 t2 s2 q1", "nottree"),
];

// Trees of three sources that go half the way round.
const CHAINS: &[&str] = &[
    "node a",
    "node b",
    "node c",
    "end a1 a 10.0.1.1 100000 1500",
    "end b1 b 10.0.1.2 100000 1500",
    "end b2 b 10.0.2.1 100000 1500",
    "end c1 c 10.0.2.2 100000 1500",
    "end c2 c 10.0.3.1 100000 1500",
    "end a2 a 10.0.3.2 100000 1500",
    "link a1 b1",
    "link b2 c1",
    "link c2 a2",
    "hop 239.1.1.1 10.0.1.1 a1 b1",
    "hop 239.1.1.1 10.0.1.1 b2 c1",
    "hop 239.1.1.1 10.0.2.1 b2 c1",
    "hop 239.1.1.1 10.0.2.1 c2 a2",
    "hop 239.1.1.1 10.0.3.1 c2 a2",
];

// The chain that a reroute closes comes open where another tree is out of the way.
const OPENED: &[(&str, &str)] = &[("reroute 239.1.1.1 10.0.2.1", "taken"), (CLOSING, "taken")];

// The third tree goes on, round to the first link.
const CLOSING: &str = "reroute 239.1.1.1 10.0.3.1 c2 a2 a1 b1";

#[test]
fn a_tree_moves_and_moves_back(rt: HostRuntime) -> Result<(), Fail> {
    let mut checker = opened(rt.alloc(), TWO_WAYS)?;
    // The first line of part 3.
    let hops = moved(&mut checker, "reroute 239.1.1.1 10.0.1.1 s2 q1 q2 t2");
    assert!(rt; hops == Some(2));
    answers(&mut checker, BACK)
}

#[test]
fn a_tree_that_moves_has_its_first_fault(rt: HostRuntime) -> Result<(), Fail> {
    let mut checker = opened(rt.alloc(), TWO_WAYS)?;
    answers(&mut checker, FAULTS)
}

#[test]
fn a_tree_that_moves_may_close_a_chain(rt: HostRuntime) -> Result<(), Fail> {
    let mut checker = opened(rt.alloc(), CHAINS)?;
    assert!(rt; closes(&mut checker, CLOSING, "a1", "b1"));
    answers(&mut checker, OPENED)?;
    // The chain is looked for in the trees in force, not in those of the `hop` lines.
    let back = "reroute 239.1.1.1 10.0.2.1 b2 c1 c2 a2";
    assert!(rt; closes(&mut checker, back, "a1", "b1"));
    Ok(())
}
