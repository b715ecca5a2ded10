//! Lines of parts 1 and 3, one after the other.
use crate::line_answers::{answers, closes, opened};
use std::test::*;

// Lines of all parts, and three behind a report.
const FIRST_LINES: &[(&str, &str)] = &[
    ("# a remark", "taken"),
    ("period 4000", "taken"),
    ("seed 7", "taken"),
    ("node a", "taken"),
    ("node b", "taken"),
    ("end a1 a 10.0.0.1 100000 1500", "taken"),
    ("end b1 b 10.0.0.2 100000 1500", "taken"),
    ("link a1 b1", "taken"),
    ("wait 1", "taken"),
    ("pass", "taken"),
    ("rounds 2", "taken"),
    ("deliver 1", "taken"),
    ("lose 8192", "taken"),
    ("copy 1", "taken"),
    ("clear b", "taken"),
    ("trace on", "taken"),
    ("report", "taken"),
    ("report b1", "taken"),
    ("flags", "taken"),
    ("node c", "late"),
    ("report c1", "name"),
    ("inject b1 224.1.1.1 00", "taken"),
];

// Ends and links, with the first fault of each that is not taken.
const ENDS_AND_LINKS: &[(&str, &str)] = &[
    ("node a", "taken"),
    ("node b", "taken"),
    ("node c", "taken"),
    ("end a1 a 10.0.0.1 100000 1500", "taken"),
    ("end b1 b 10.0.0.2 100000 1500", "taken"),
    ("end b2 b 10.0.0.3 100000 1500", "taken"),
    ("end c1 c 10.0.0.4 100000 1500", "taken"),
    // An address that is a group, and a node that is not there: the range comes first.
    ("end x z 224.0.0.1 1 1", "range"),
    ("end x z 10.0.0.1 1 1", "name"),
    ("end x a 10.0.0.1 1 1", "twice"),
    ("end a1 a 10.0.0.9 1 1", "twice"),
    ("end x a 10.0.0.9 70368744177664 1", "range"),
    // Two declared ends of one node beside one that is not there: the range comes first.
    ("link b1 z1 b2", "range"),
    ("link a1 a1", "range"),
    ("link a1 z1", "name"),
    ("link c1 a1 b1", "taken"),
    ("link b2 c1", "twice"),
    ("link b2", "word"),
];

// Hops, with the first fault of each that is not taken.
const HOPS: &[(&str, &str)] = &[
    ("node s", "taken"),
    ("node a", "taken"),
    ("node b", "taken"),
    ("end s1 s 10.0.0.1 100000 1500", "taken"),
    ("end a1 a 10.0.0.2 100000 1500", "taken"),
    ("end a2 a 10.0.1.1 100000 1500", "taken"),
    ("end b1 b 10.0.1.2 100000 1500", "taken"),
    ("end b2 b 10.0.2.1 100000 1500", "taken"),
    ("end s2 s 10.0.2.2 100000 1500", "taken"),
    ("link s1 a1", "taken"),
    ("link a2 b1", "taken"),
    ("link b2 s2", "taken"),
    ("hop 224.1.1.1 10.0.0.1 s1 a1", "taken"),
    ("hop 224.1.1.1 10.0.0.1 a2 b1", "taken"),
    ("hop 10.0.0.1 10.0.0.1 z1 a1", "range"),
    ("hop 224.1.1.1 10.9.0.1 s1 a1", "name"),
    // The tree is at the node already.
    ("hop 224.1.1.1 10.0.0.1 s2 b2", "nottree"),
    // Trees of three sources, each of two hops, go round.
    ("hop 224.1.1.1 10.0.2.1 b2 s2", "taken"),
    ("hop 224.1.1.1 10.0.2.1 s1 a1", "taken"),
    ("hop 224.1.1.1 10.0.1.1 a2 b1", "taken"),
];

#[test]
fn lines_are_taken_up_to_a_bad_one(rt: HostRuntime) -> Result<(), Fail> {
    let mut checker = opened(rt.alloc(), &[])?;
    answers(&mut checker, FIRST_LINES)
}

#[test]
fn ends_and_links_have_their_first_fault(rt: HostRuntime) -> Result<(), Fail> {
    let mut checker = opened(rt.alloc(), &[])?;
    answers(&mut checker, ENDS_AND_LINKS)
}

#[test]
fn hops_have_their_first_fault(rt: HostRuntime) -> Result<(), Fail> {
    let mut checker = opened(rt.alloc(), &[])?;
    answers(&mut checker, HOPS)?;
    assert!(rt; closes(&mut checker, "hop 224.1.1.1 10.0.1.1 b2 s2", "s1", "a1"));
    Ok(())
}
