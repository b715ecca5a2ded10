//! How runs end, over devices in memory, by a player that has no memory to open a network.
ghost use Rattle.std.specs.Prelude.{◌≡◌, ◌<◌, []};
ghost use Rattle.script_checker.specs.Checked.{draft_of};

use byte_streams::{MemorySink, MemorySource};
use rsvp_base::NoMemory;
use script_checker::Checker;
use script_grammar::{Fault, Stop, put_advice};
use script_run::{Checks, Ending, Player, Unwatched, Watch, run_lines};
use std::alloc::Global;
use std::test::Fail;

// It takes lines, and runs no event.
#[derive(Drop)]
struct Silent {
    alloc: Global,
    checker: Checker,
}

impl Player for Silent {
    ghost stands = { λ p d. (draft_of p.checker ≡ d) × (d.events ≡ []) };

    fn play<W: Watch>(
        &mut self,
        line: &[u8],
        watch: &mut W,
        out: &mut Vec<u8>,
    ) -> Result<(), Stop> {
        let _ = out.len();
        let _ = watch;
        match self.checker.feed(line) {
            Ok(None) => Ok(()),
            Ok(Some(_event)) => Err(Stop::NoMemory),
            Err(stop) => Err(stop),
        }
    }

    fn advise(&self, line: &[u8], why: &Fault, advice: &mut Vec<u8>) -> Result<(), NoMemory> {
        put_advice(self.alloc, &self.checker, line, why, advice)
    }
}

// Texts, whether the first call of the source fails, and how their run ends.
const RUNS: &[(&[u8], bool, &str)] = &[
    (b"", false, "done"),
    (b"\n# x\n \n", false, "done"),
    (b"\n# x", false, "done"),
    (b"\n# x\nfrob", false, "word in line 3"),
    (b"node a\n\nfrob\n", false, "word in line 3"),
    (b"wait 1\nfrob\n", false, "memory"),
    (&[b'a'; 2049], false, "limit in line 1"),
    (b"frob", true, "read fault"),
];

// How a run ends, in words.
fn told(ending: &Ending) -> &'static str {
    match ending {
        Ending::Done => "done",
        Ending::BadLine {
            line: 3,
            why: Fault::Word,
        } => "word in line 3",
        Ending::BadLine {
            line: 1,
            why: Fault::Limit,
        } => "limit in line 1",
        Ending::NoMemory => "memory",
        Ending::ReadFault => "read fault",
        _ => "another",
    }
}

// Runs a text, of which each call gives so many bytes at most.
fn run_text(alloc: Global, text: &[u8], fails: bool, most: usize) -> Result<Ending, Fail>
    requires { 0 < most }
{
    let mut failing = Vec::new(alloc);
    if fails {
        failing.push(1u64)?;
    }
    let mut source = MemorySource::new(text.to_vec(alloc)?, failing, most);
    let mut sink = MemorySink::open(alloc, 16, Vec::new(alloc), Vec::new(alloc))?;
    let mut player = Silent {
        alloc,
        checker: Checker::open(alloc)?,
    };
    let mut advice = Vec::new(alloc);
    Ok(run_lines(
        alloc,
        &mut player,
        &mut source,
        &mut sink,
        &mut Unwatched,
        &mut advice,
    ))
}

// Runs a text in pieces of 1 to 8 bytes, and fails where the run ends in another way.
fn ends(alloc: Global, text: &[u8], fails: bool, wanted: &str) -> Result<(), Fail> {
    for most in 1..9 {
        let ending = run_text(alloc, text, fails, most)?;
        if told(&ending) != wanted {
            return Err(Fail::new(wanted));
        }
    }
    Ok(())
}

#[test]
fn runs_end_as_they_must(rt: HostRuntime) -> Result<(), Fail> {
    for (text, fails, wanted) in RUNS {
        ends(rt.alloc(), text, *fails, wanted)?;
    }
    Ok(())
}
