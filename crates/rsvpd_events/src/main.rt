//! `rsvpd_events`: runs the script of a network of RSVP routers that it reads, and writes what happens as lines of JSON.
//!
//! It is `write_events` (`script_events`) at the checker of scripts and the routers that are shipped, from standard input to standard
//! output. How a run ends, and what is said of it, is as for `replay`; how far many rounds are it tells on a terminal (`Progress`).
//! Where standard output fails, as a pipe that was closed, no more of standard input is read (`stopping`).
#![tactic(auto)]

mod stopping;

use crate::stopping::{Input, Output};
use byte_streams::{StdSink, StdSource};
use command_run::{Status, status_of};
use live_router::LiveRouter;
use rsvpd_run::{Noting, Progress};
use script_checker::Checker;
use script_events::{Recorder, write_events};
use std::cell::Cell;
use std::process::ExitCode;
use std::{env, io};

fn main(rt: HostRuntime) -> ExitCode {
    let mut advice = Vec::new(rt.alloc());
    let mut unread = None;
    let mut unwritten = None;
    let status = match has_words(&rt) {
        Ok(true) => Status::Usage,
        Ok(false) => run(&rt, &mut unread, &mut unwritten, &mut advice),
        Err(status) => status,
    };
    // The status says how the run ended, also where its text cannot be printed.
    let _ = print(&rt, &status, advice.as_slice());
    let _ = match status {
        Status::ReadFault => print_cause(&rt, "standard input", unread),
        Status::WriteFault => print_cause(&rt, "standard output", unwritten),
        _ => Ok(()),
    };
    ExitCode::from(status.code())
}

// Whether the command line has words after the program's name. `NoMemory`: they cannot be had.
fn has_words(rt: &HostRuntime) -> Result<bool, Status> {
    let args = env::args(rt).map_err(|e| match e.kind() {
        io::ErrorKind::OutOfMemory => Status::NoMemory,
        _ => Status::Usage,
    })?;
    Ok(args.skip(1).next().is_some())
}

// Runs the script on standard input, and writes its events to standard output. What the system says of these is kept.
fn run(
    rt: &HostRuntime,
    unread: &mut Option<io::Error>,
    unwritten: &mut Option<io::Error>,
    advice: &mut Vec<u8>,
) -> Status {
    let alloc = rt.alloc();
    let has_failed = Cell::new(false);
    let mut source = StdSource::new(Input::new(Noting::new(rt.stdin(), unread), &has_failed));
    let sink = StdSink::new(Output::new(Noting::new(rt.stdout(), unwritten), &has_failed));
    let Ok(mut recorder) = Recorder::open(alloc, sink) else {
        return Status::NoMemory;
    };
    let Ok(checker) = Checker::open(alloc) else {
        return Status::NoMemory;
    };
    let mut progress = Progress::open_beside(*rt);
    let mut last = None;
    let ending = write_events::<Checker, LiveRouter, _, _, _>(
        alloc,
        checker,
        &mut source,
        &mut recorder,
        &mut progress,
        &mut last,
        advice,
    );
    progress.clear();
    let status = status_of(ending);
    let Ok(message) = format!(in alloc; "{status}") else {
        return Status::NoMemory;
    };
    match recorder.close(status.code(), message.as_bytes()) {
        Ok(()) => status,
        Err(ending) => status_of(ending),
    }
}

// Prints what the system said of this stream, in a line of its own, where it said something.
fn print_cause(rt: &HostRuntime, stream: &str, error: Option<io::Error>) -> io::Result<()> {
    match error {
        Some(error) => eprintln!(rt; "  {stream}: {error}"),
        None => Ok(()),
    }
}

// Prints the text of a status on standard error, and in a line of its own what is wrong with the bad line.
fn print(rt: &HostRuntime, status: &Status, advice: &[u8]) -> io::Result<()> {
    match status {
        Status::Done => Ok(()),
        Status::Usage => eprintln!(rt; "usage: rsvpd events"),
        _ => {
            eprintln!(rt; "{status}")?;
            match str::from_utf8(advice) {
                Ok("") => Ok(()),
                Ok(text) => eprintln!(rt; "{text}"),
                Err(_) => Ok(()),
            }
        }
    }
}
