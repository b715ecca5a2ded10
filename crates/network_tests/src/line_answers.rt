//! What the checker answers to a line, in a word.
use byte_streams::MOST_LINE;
use network_model::Event;
use rsvp_base::EndName;
use script_checker::Checker;
use script_grammar::{Fault, Stop};
use script_run::Checks;
use std::alloc::Global;
use std::test::Fail;

/// What the checker answers to the line behind those that were taken.
pub fn answer(checker: &mut Checker, line: &str) -> Result<Option<Event>, Stop> {
    let line = line.as_bytes();
    if line.len() > MOST_LINE {
        return Err(Stop::Bad(Fault::Limit));
    }
    checker.feed(line)
}

// The word of a fault in the text that a user reads.
fn reason(fault: &Fault) -> &'static str {
    match fault {
        Fault::Word => "word",
        Fault::Late => "late",
        Fault::Range => "range",
        Fault::Name => "name",
        Fault::Twice => "twice",
        Fault::Style => "style",
        Fault::Limit => "limit",
        Fault::NotTree => "nottree",
        Fault::Over(_) => "over",
        Fault::Loop { .. } => "loop",
    }
}

// `taken`, or why the line is not taken.
fn word(checker: &mut Checker, line: &str) -> &'static str {
    let said = answer(checker, line);
    match &said {
        Ok(_) => "taken",
        Err(Stop::Bad(fault)) => reason(fault),
        Err(Stop::Crowded) => "crowded",
        Err(Stop::NoMemory) => "memory",
    }
}

/// Feeds these lines, each with its word, and fails at the first to which the checker answers with another.
pub fn answers(checker: &mut Checker, rows: &[(&str, &str)]) -> Result<(), Fail> {
    for (line, wanted) in rows {
        let said = word(checker, line);
        if said != *wanted {
            return Err(Fail::new(format_args!("{said}, not {wanted}: {line}")));
        }
    }
    Ok(())
}

/// A checker that took these lines.
pub fn opened(alloc: Global, lines: &[&str]) -> Result<Checker, Fail> {
    let mut checker = Checker::open(alloc).ok().ok_or("room")?;
    for line in lines {
        answers(&mut checker, &[(*line, "taken")])?;
    }
    Ok(checker)
}

// Whether an end has this name.
fn is_name(name: &EndName, wanted: &str) -> bool {
    *name.bytes() == *wanted.as_bytes()
}

/// Whether the line is refused for a loop through the hop between these ends.
pub fn closes(checker: &mut Checker, line: &str, from: &str, to: &str) -> bool {
    let said = answer(checker, line);
    match &said {
        Err(
            Stop::Bad(
                Fault::Loop {
                    from: first,
                    to: last,
                    ..
                },
            ),
        ) => is_name(first, from) && is_name(last, to),
        _ => false,
    }
}

/// The number of hops of the tree that the line moves, if it moves one.
pub fn moved(checker: &mut Checker, line: &str) -> Option<usize> {
    match answer(checker, line) {
        Ok(Some(Event::Reroute { hops, .. })) => Some(hops.len()),
        _ => None,
    }
}
