//! Lines of each kind, of its form and not.
use script_grammar::{ScriptLine, read_line};
use script_words::Unread;
use std::alloc::Global;
use std::test::*;

// Lines of their form.
const FORMED: &[&str] = &[
    "",
    "   ",
    "#\t period x",
    "period 30000",
    "seed 18446744073709551616",
    "node r",
    "end r1 r 10.0.1.2 1000 1500",
    "link a1 b1",
    "link a1 b1 c1 d1 e1 f1 g1 h1",
    "hop 239.1.1.1 10.0.1.1 s1 r1",
    "stale-path r 239.1.1.1/17/5004 10.0.1.1:9 r1 10.0.1.1 7/7/inf/1/1500 100000",
    "stale-resv r1 239.1.1.1/17/5004 WF 10.0.1.1 10.0.9.9,10.0.9.8 4/4/inf/1/1500 100",
    "stale-resv r1 239.1.1.1/17/5004 FF 10.0.1.1 10.0.9.9:7 4/4/inf/1/1500 100",
    "stale-resv r1 239.1.1.1/17/5004 SE 10.0.1.1 10.0.9.9:7,10.0.9.8:7 4/4/9/1/1500 100",
    "stale-blockade r 239.1.1.1/17/5004 hop r1 10.0.1.1 2 4/4/inf/1/1500 60000",
    "stale-blockade r 239.1.1.1/17/5004 sender 10.0.1.1:9 3 4/4/inf/1/1500 60000",
    "send s 239.1.1.1/17/5004 10.0.1.1:5004 1000/2000/inf/64/1500",
    "drop s 239.1.1.1/17/5004 10.0.1.1:5004",
    "want t 239.1.1.1/17/5004 WF * 1000/2000/inf/64/1500",
    "want t 239.1.1.1/17/5004 SE 10.0.1.1:1,10.0.1.1:2 1000/2000/inf/64/1500 confirm",
    "quit t 239.1.1.1/17/5004",
    "wait 1",
    "pass",
    "pass 1001",
    "deliver 0",
    "lose 1",
    "copy 8193",
    "clear r",
    "rounds 48",
    "trace on",
    "trace off",
    "report",
    "report r1",
    "flags",
    "inject r1 239.1.1.1 0aFf",
    "reroute 239.1.1.1 10.0.1.1",
    "reroute 239.1.1.1 10.0.1.1 s2 q1 q2 t2",
];

// Lines with a word that is not of its form.
const UNFORMED: &[&str] = &[
    "frob",
    "\tnode a",
    "wait 1\r",
    "wait\t1",
    "node a\x00",
    "period",
    "period 1 2",
    "period 000",
    "seed 100000000000000000000",
    "node A",
    "node abcdefghijklmnopq",
    "end r1 r 10.0.1 1000 1500",
    "link a1",
    "link a1 b1 c1 d1 e1 f1 g1 h1 i1",
    "hop 239.1.1.1 10.0.1.1 s1",
    "stale-resv r1 239.1.1.1/17/5004 WF 10.0.1.1 10.0.9.9:7 4/4/inf/1/1500 100",
    "stale-resv r1 239.1.1.1/17/5004 FF 10.0.1.1 10.0.9.9 4/4/inf/1/1500 100",
    "stale-blockade r 239.1.1.1/17/5004 hop 10.0.1.1:9 3 4/4/inf/1/1500 60000",
    "stale-blockade r 239.1.1.1/17/5004 node r1 10.0.1.1 2 4/4/inf/1/1500 60000",
    "send s 239.1.1.1/17 10.0.1.1:5004 1000/2000/inf/64/1500",
    "want t 239.1.1.1/17/5004 WF 10.0.1.1 1000/2000/inf/64/1500",
    "want t 239.1.1.1/17/5004 FF * 1000/2000/inf/64/1500",
    "want t 239.1.1.1/17/5004 WF * 1000/2000/inf/64/1500 conf",
    "trace",
    "report r1 r2",
    "flags r1",
    "inject r1 239.1.1.1 0aF",
    "inject r1 239.1.1.1 0g",
    "inject r1 239.1.1.1",
    "reroute 239.1.1.1 10.0.1.1 s2",
];

// Reads these lines, and fails at the first that is of its form where they are not to be, or is not.
fn reads(alloc: Global, lines: &[&str], are_formed: bool) -> Result<(), Fail> {
    let mut words = Vec::new(alloc);
    for line in lines {
        let is_formed = match read_line(alloc, line.as_bytes(), &mut words) {
            Ok(_) => true,
            Err(Unread::Word) => false,
            Err(Unread::NoMemory) => return Err(Fail::new("memory")),
        };
        if is_formed != are_formed {
            return Err(Fail::new(*line));
        }
    }
    Ok(())
}

#[test]
fn each_kind_of_line_is_read(rt: HostRuntime) -> Result<(), Fail> {
    reads(rt.alloc(), FORMED, true)
}

#[test]
fn a_word_that_is_not_of_its_form_is_found(rt: HostRuntime) -> Result<(), Fail> {
    reads(rt.alloc(), UNFORMED, false)
}

#[test]
fn a_pass_alone_is_one(rt: HostRuntime) {
    let mut words = Vec::new(rt.alloc());
    assert!(rt;
        matches!(
            read_line(rt.alloc(), b" pass ", &mut words),
            Ok(ScriptLine::Pass(1))
        )
    );
}
