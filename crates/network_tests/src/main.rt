//! Tests of scripts: what each kind of line says, lines that are taken, the first fault of one that is not, and how runs end. Tests of a
//! router, message by message, of whole commands (`commands`), and of one router over a stream (`streams`): a row of a router is a
//! script, in the language of `rsvpd replay`, and what it writes, with what stands in flight behind its last line, in the words of
//! `rsvpd show`. What is wanted is worked out by hand from the rules. Above a message that a script puts in flight stands what its
//! bytes say.
//!
//! There is nothing here but tests: a crate that has tests is proved twice, and the crates of a router are not. It is a program,
//! which does nothing, and no library: of a library the kit reads all sources that it stands on twice more.
#![tactic(auto)]

#[cfg(test)]
mod command_lines;
#[cfg(test)]
mod commands;
#[cfg(test)]
mod declared_lines;
#[cfg(test)]
mod errors;
#[cfg(test)]
mod grammar;
#[cfg(test)]
mod host_lines;
#[cfg(test)]
mod left_over_lines;
#[cfg(test)]
mod line_answers;
#[cfg(test)]
mod moving_trees;
#[cfg(test)]
mod networks;
#[cfg(test)]
mod paths;
#[cfg(test)]
mod reservations;
#[cfg(test)]
mod run_endings;
#[cfg(test)]
mod runs;
#[cfg(test)]
mod streams;

fn main(_rt: HostRuntime) {}
