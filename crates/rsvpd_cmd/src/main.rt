//! `rsvpd`: replays the script of a network of RSVP routers, and writes what its events report; writes the demand of such a script;
//! shows messages in words; grows a network from a seed, runs it and writes a summary; serves one router over a stream of frames; or
//! says which packets of a flow conform to it.
//!
//! Its promises are the clauses of `run` (`rsvpd_run`), which it calls with the words of the command line, standard input and
//! standard output. How far many rounds are it tells on a terminal (`Progress`).
#![tactic(auto)]

use byte_streams::{StdSink, StdSource};
use rsvpd_run::{Ended, Noting, Progress, Status, run};
use std::env;
use std::io::{self, BufReader};
use std::process::ExitCode;

fn main(rt: HostRuntime) -> ExitCode {
    let mut unread = None;
    let mut unwritten = None;
    let mut progress = Progress::open(rt);
    let (status, advice) = match words(&rt) {
        Ok(words) => run_words(&rt, &words, &mut unread, &mut unwritten, &mut progress),
        Err(status) => (status, Vec::new(rt.alloc())),
    };
    progress.clear();
    // The status says how the run ended, also where its text cannot be printed.
    let _ = print(&rt, &status, advice.as_slice());
    let _ = match status {
        Status::ReadFault => print_cause(&rt, "standard input", unread),
        Status::WriteFault => print_cause(&rt, "standard output", unwritten),
        _ => Ok(()),
    };
    ExitCode::from(status.code())
}

// Runs the task of these words from standard input to standard output, and says how it ended, with what it advises. The input is read
// ahead, so that a frame or a line takes no call of the system of its own; the output is written as it comes. What the system said of
// a stream that failed is kept.
fn run_words(
    rt: &HostRuntime,
    words: &Vec<String>,
    unread: &mut Option<io::Error>,
    unwritten: &mut Option<io::Error>,
    progress: &mut Progress,
) -> (Status, Vec<u8>) {
    let mut ended = Ended::new(rt.alloc());
    let Ok(input) = BufReader::new(rt.alloc(), Noting::new(rt.stdin(), unread)) else {
        return (Status::NoMemory, ended.advice);
    };
    let mut source = StdSource::new(input);
    let mut sink = StdSink::new(Noting::new(rt.stdout(), unwritten));
    let status = run(
        rt.alloc(),
        words,
        &mut source,
        &mut sink,
        progress,
        &mut ended,
    );
    (status, ended.advice)
}

// The words of the command line after the program's name. `Usage`: one is not UTF-8, or they cannot be had.
fn words(rt: &HostRuntime) -> Result<Vec<String>, Status> {
    let args = env::args(rt).map_err(|e| match e.kind() {
        io::ErrorKind::OutOfMemory => Status::NoMemory,
        _ => Status::Usage,
    })?;
    let mut words = Vec::new(rt.alloc());
    for word in args.skip(1) {
        words.push(word).map_err(|_| Status::NoMemory)?;
    }
    Ok(words)
}

// Prints what the system said of this stream, in a line of its own, where it said something.
fn print_cause(rt: &HostRuntime, stream: &str, error: Option<io::Error>) -> io::Result<()> {
    match error {
        Some(error) => eprintln!(rt; "  {stream}: {error}"),
        None => Ok(()),
    }
}

// Prints the text of a status on standard error, and in a line of its own the advice on the line at which the run ended.
fn print(rt: &HostRuntime, status: &Status, advice: &[u8]) -> io::Result<()> {
    match status {
        Status::Done => Ok(()),
        _ => {
            eprintln!(rt; "{status}")?;
            match str::from_utf8(advice) {
                Ok("") => Ok(()),
                Ok(text) => eprintln!(rt; "{text}"),
                Err(_) => Ok(()),
            }
        }
    }
}
