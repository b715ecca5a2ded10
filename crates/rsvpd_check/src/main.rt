//! `rsvpd_check [--strict]`: says what in a script will not do what its writer meant. The launcher runs it as `rsvpd check`.
//!
//! Its promises are the clauses of `check`, which `main` calls with standard input and standard output: a misfit is said if and only if
//! the demand of the script ends in `fits no`, and else how much is in flight once all has settled: the refresh overhead. It ends as
//! `demand` does, and with `--strict` in status 10 where it said anything but that refreshes crowd no later round.
#![tactic(auto)]

mod checking;
mod code;

use crate::checking::check;
use crate::code::code_of;
use byte_streams::{StdSink, StdSource};
use command_run::Status;
use std::process::ExitCode;
use std::{env, io};

fn main(rt: HostRuntime) -> ExitCode {
    match is_strict(&rt) {
        Ok(strict) => {
            let mut advice = Vec::new(rt.alloc());
            let mut source = StdSource::new(rt.stdin());
            let mut sink = StdSink::new(rt.stdout());
            let outcome = check(rt.alloc(), &mut source, &mut sink, &mut advice);
            // The status tells how it ended, also where its text cannot be printed.
            let _ = print(&rt, &outcome.status, advice.as_slice());
            ExitCode::from(code_of(&outcome.status, strict && outcome.said))
        }
        Err(Status::Usage) => {
            let _ = eprintln!(rt; "usage: rsvpd check [--strict]");
            ExitCode::from(Status::Usage.code())
        }
        Err(status) => {
            let _ = print(&rt, &status, b"");
            ExitCode::from(status.code())
        }
    }
}

// Whether the words behind the program's name are `--strict`, and not none. `Usage`: they are others, or one is not UTF-8. `NoMemory`:
// there was no room for them.
fn is_strict(rt: &HostRuntime) -> Result<bool, Status> {
    let args = env::args(rt).map_err(|e| match e.kind() {
        io::ErrorKind::OutOfMemory => Status::NoMemory,
        _ => Status::Usage,
    })?;
    let mut strict = false;
    for word in args.skip(1) {
        if strict || word.as_str() != "--strict" {
            return Err(Status::Usage);
        }
        strict = true;
    }
    Ok(strict)
}

// Prints the text of a status on standard error, and in a line of its own what is wrong with the bad line.
fn print(rt: &HostRuntime, status: &Status, advice: &[u8]) -> io::Result<()> {
    match status {
        Status::Done => Ok(()),
        _ => {
            eprintln!(rt; "{status}")?;
            match str::from_utf8(advice) {
                Ok("") => Ok(()),
                Ok(text) => eprintln!(rt; "{text}"),
                Err(_) => Ok(()),
            }
        }
    }
}
