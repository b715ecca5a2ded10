//! Lines of hosts: who sends, and who wants what.
use crate::line_answers::{answers, opened};
use script_checker::Checker;
use std::alloc::Global;
use std::test::*;

/// The lines of a network of two nodes.
pub const TWO_NODES: &[&str] = &[
    "node a",
    "node b",
    "end a1 a 10.0.0.1 100000 1500",
    "end b1 b 10.0.0.2 100000 1500",
    "link a1 b1",
];

// Senders that cannot be, with their first fault.
const SENDERS: &[(&str, &str)] = &[
    ("send z 10.0.0.1/17/1 10.0.0.1:1 1/1/inf/1/1", "range"),
    ("send z 224.1.1.1/17/1 10.0.0.1:1 1/1/inf/1/1", "name"),
    // An address of another node.
    ("send b 224.1.1.1/17/1 10.0.0.1:1 1/1/inf/1/1", "name"),
    ("drop a 224.1.1.1/17/1 10.0.0.1:1", "name"),
];

// Senders behind sixteen of a session.
const MORE_SENDERS: &[(&str, &str)] = &[
    // A sender that sends already is no 17th.
    ("send a 224.1.1.1/17/1 10.0.0.1:16 2/2/inf/1/1", "taken"),
    ("send a 224.1.1.1/17/1 10.0.0.1:17 1/1/inf/1/1", "limit"),
    ("send a 224.1.1.1/17/2 10.0.0.1:17 1/1/inf/1/1", "taken"),
    // It does not send at this node.
    ("drop b 224.1.1.1/17/1 10.0.0.1:3", "name"),
    ("drop a 224.1.1.1/17/1 10.0.0.1:3", "taken"),
    ("drop a 224.1.1.1/17/1 10.0.0.1:3", "name"),
    ("send a 224.1.1.1/17/1 10.0.0.1:17 1/1/inf/1/1", "taken"),
];

// A sender of a 33rd session.
const LAST_SENDER: &[(&str, &str)] = &[("send a 224.1.1.1/17/33 10.0.0.1:1 1/1/inf/1/1", "limit")];

// A sender of this port begins in the session of that port.
fn begins(alloc: Global, checker: &mut Checker, session: u16, port: u16) -> Result<(), Fail> {
    let line = format!(in alloc; "send a 224.1.1.1/17/{session} 10.0.0.1:{port} 1/1/inf/1/1")?;
    answers(checker, &[(line.as_str(), "taken")])
}

#[test]
fn senders_have_their_first_fault(rt: HostRuntime) -> Result<(), Fail> {
    let mut checker = opened(rt.alloc(), TWO_NODES)?;
    answers(&mut checker, SENDERS)?;
    for port in 1..17 {
        begins(rt.alloc(), &mut checker, 1, port)?;
    }
    answers(&mut checker, MORE_SENDERS)?;
    for session in 3..33 {
        begins(rt.alloc(), &mut checker, session, 1)?;
    }
    answers(&mut checker, LAST_SENDER)
}
