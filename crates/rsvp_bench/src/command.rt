//! The command line.
use crate::messages::Speech;
use crate::pools::Living;
use crate::tables::{Calls, Desk};
use crate::trees::{Forest, Until};
use crate::vectors::Vector;

/// What is timed.
#[derive(Clone, Copy)]
pub enum Verb {
    Read,
    Write,
    Grow(Forest),
    Serve(Desk),
    Wait(Living),
    Speak(Speech),
}

/// What is timed, and how many times it is done.
#[derive(Clone, Copy)]
pub struct Command {
    pub verb: Verb,
    pub times: u32,
}

/// The command of the words behind the program's name. `None` where they are not a verb and a number.
pub fn command_of(words: &Vec<String>) -> Option<Command> {
    if words.len() != 2 {
        return None;
    }
    let verb = verb_of(&words[0])?;
    let times = words[1].parse::<u32>().ok()?;
    Some(Command { verb, times })
}

fn verb_of(word: &str) -> Option<Verb> {
    match word {
        "read" => Some(Verb::Read),
        "write" => Some(Verb::Write),
        "grow" => Some(trees(false, Until::Grown)),
        "close" => Some(trees(false, Until::Closed)),
        "ask" => Some(trees(false, Until::Asked)),
        "owe" => Some(trees(false, Until::Owed)),
        "grow-apart" => Some(trees(true, Until::Grown)),
        "close-apart" => Some(trees(true, Until::Closed)),
        "ask-apart" => Some(trees(true, Until::Asked)),
        "owe-apart" => Some(trees(true, Until::Owed)),
        "fill" => Some(tables(false, Calls::Fill)),
        "put" => Some(tables(false, Calls::Refresh)),
        "find" => Some(tables(false, Calls::Find)),
        "remove" => Some(tables(false, Calls::Remove)),
        "parts" => Some(tables(false, Calls::Parts)),
        "toward" => Some(tables(false, Calls::Toward)),
        "fill-shared" => Some(tables(true, Calls::Fill)),
        "put-shared" => Some(tables(true, Calls::Refresh)),
        "find-shared" => Some(tables(true, Calls::Find)),
        "remove-shared" => Some(tables(true, Calls::Remove)),
        "parts-shared" => Some(tables(true, Calls::Parts)),
        "toward-shared" => Some(tables(true, Calls::Toward)),
        "wait-one" => Some(Verb::Wait(Living::One)),
        "wait-all" => Some(Verb::Wait(Living::All)),
        "decode-path" => Some(reading(Vector::Path)),
        "decode-path-adspec" => Some(reading(Vector::PathAdspec)),
        "decode-resv" => Some(reading(Vector::Resv)),
        "decode-path-err" => Some(reading(Vector::PathErr)),
        "decode-resv-err" => Some(reading(Vector::ResvErr)),
        "decode-path-tear" => Some(reading(Vector::PathTear)),
        "decode-resv-tear" => Some(reading(Vector::ResvTear)),
        "decode-resv-conf" => Some(reading(Vector::ResvConf)),
        "encode-path" => Some(writing(Vector::Path)),
        "encode-path-adspec" => Some(writing(Vector::PathAdspec)),
        "encode-resv" => Some(writing(Vector::Resv)),
        "encode-path-err" => Some(writing(Vector::PathErr)),
        "encode-resv-err" => Some(writing(Vector::ResvErr)),
        "encode-path-tear" => Some(writing(Vector::PathTear)),
        "encode-resv-tear" => Some(writing(Vector::ResvTear)),
        "encode-resv-conf" => Some(writing(Vector::ResvConf)),
        _ => None,
    }
}

fn trees(is_apart: bool, until: Until) -> Verb {
    Verb::Grow(Forest { is_apart, until })
}

fn tables(is_shared: bool, calls: Calls) -> Verb {
    Verb::Serve(Desk { is_shared, calls })
}

fn reading(vector: Vector) -> Verb {
    Verb::Speak(Speech {
        vector,
        is_written: false,
    })
}

fn writing(vector: Vector) -> Verb {
    Verb::Speak(Speech {
        vector,
        is_written: true,
    })
}
