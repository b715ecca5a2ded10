//! `rsvp_bench`: does a piece of work many times, so that a script can tell how long it takes.
//!
//! `rsvp_bench read N` reads the objects of one message N times, and `rsvp_bench write N` writes them N times. Both print
//! how many objects that were, and a sum over what was read or written, so that no work can be left out.
//!
//! `rsvp_bench grow N` adds the hops of the largest network, all of one group, N times; `close` closes the topology too.
//! `ask` then asks where each tree comes into each node and leaves it, and `owe` works out what each end owes. With `-apart`
//! behind it each tree has a group of its own. They print how many hops were added, and a sum over what came of it.
//!
//! `rsvp_bench put N` puts each reservation of a full table of fixed filters anew N times; `fill` puts them into the empty
//! table, `find` finds each, `remove` takes each out and puts it in again, `parts` merges what is on interfaces, and `toward`
//! what goes toward a previous hop. With `-shared` behind it the table is of shared filters. They print how many calls were
//! made, and a sum over what came of them.
//!
//! `rsvp_bench wait-one N` lets time pass 4,000 times N times in a pool of 1,024 slots in which one value lives and none runs
//! out, and `wait-all` where one lives in each slot. They print how many waits were made, and their milliseconds.
//!
//! `rsvp_bench decode-path N` reads a Path N times, and `rsvp_bench encode-path N` writes it N times; so do `-path-adspec` (a
//! Path with an ADSPEC), `-resv`, `-path-err`, `-resv-err`, `-path-tear`, `-resv-tear` and `-resv-conf` with other messages. They
//! print how many calls were made, and a sum over all that was read, or over lengths and checksums of what was written.
#![tactic(auto)]

mod command;
mod messages;
mod pools;
mod reservations;
mod sample;
mod tables;
mod trees;
mod vectors;
mod work;

use command::{Command, Verb, command_of};
use messages::message_times;
use pools::wait_times;
use std::process::ExitCode;
use std::{env, io};
use tables::serve_times;
use trees::grow_times;
use work::{read_times, write_times};

// The exit status where memory ran out.
const NO_MEMORY: u8 = 1;

// The exit status of a faulty command line.
const USAGE: u8 = 2;

// The exit status where bytes that should be a message are none.
const NO_MESSAGE: u8 = 3;

fn main(rt: HostRuntime) -> io::Result<ExitCode> {
    let mut words = Vec::new(rt.alloc());
    for word in env::args(&rt)?.skip(1) {
        words.push(word)?;
    }
    let Some(command) = command_of(&words) else {
        eprintln!(rt;
            "usage: rsvp_bench read|write|(grow|close|ask|owe)[-apart]|(fill|put|find|remove|parts|toward)[-shared]|wait-one|wait-all|(decode|encode)-(path|path-adspec|resv|path-err|resv-err|path-tear|resv-tear|resv-conf) N"
        )?;
        return Ok(ExitCode::from(USAGE));
    };
    let Command { verb, times } = command;
    match verb {
        Verb::Read => {
            let done = read_times(times);
            println!(rt; "objects {} sum {}", done.objects, done.sum)?;
        }
        Verb::Write => {
            let done = write_times(times);
            println!(rt; "objects {} sum {}", done.objects, done.sum)?;
        }
        Verb::Grow(forest) => {
            let Some(grown) = grow_times(rt.alloc(), forest, times) else {
                eprintln!(rt; "out of memory")?;
                return Ok(ExitCode::from(NO_MEMORY));
            };
            println!(rt; "hops {} sum {}", grown.hops, grown.sum)?;
        }
        Verb::Serve(desk) => {
            let Some(served) = serve_times(rt.alloc(), desk, times) else {
                eprintln!(rt; "out of memory")?;
                return Ok(ExitCode::from(NO_MEMORY));
            };
            println!(rt; "calls {} sum {}", served.calls, served.sum)?;
        }
        Verb::Wait(living) => {
            let Some(served) = wait_times(rt.alloc(), living, times) else {
                eprintln!(rt; "out of memory")?;
                return Ok(ExitCode::from(NO_MEMORY));
            };
            println!(rt; "calls {} sum {}", served.calls, served.sum)?;
        }
        Verb::Speak(speech) => {
            let Some(served) = message_times(speech, times) else {
                eprintln!(rt; "no message")?;
                return Ok(ExitCode::from(NO_MESSAGE));
            };
            println!(rt; "calls {} sum {}", served.calls, served.sum)?;
        }
    }
    Ok(ExitCode::SUCCESS)
}
