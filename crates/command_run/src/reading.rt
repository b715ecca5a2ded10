//! Reading a command line.
ghost use Rattle.std.specs.Prelude.{◌≡◌, ◌++◌, ℕ, List, [], Some, None, true, length, map, codes, option_map, string_bytes, IfOk, IfErr, OnOk, MatchResult};
ghost use Rattle.std.specs.Char.{is_ascii_digit};
ghost use Rattle.std.specs.List.{list_all};
ghost use Rattle.std.specs.Str.Parse.{digits_value};
ghost use Rattle.clap.specs.Words.{app_of, first_value, found_of};
ghost use Rattle.command_run.specs.CommandLine.{faults_at, rsvpd, value_at};
ghost use Rattle.command_run.specs.Orders.{below_2_to_64, grown, is_numeral, order_at, order_of, ordered, seed_of, unseeded};

use crate::order::{NoOrder, Order};
use clap::error::ErrorKind;
use clap::{Arg, ArgAction, ArgMatches, Command};
use std::alloc::{AllocError, Global};

/// The order of the words behind the program's name. `Usage`: they are a faulty command line.
pub fn read_order(alloc: Global, words: &[String]) -> Result<Order, NoOrder>
    ensures order { IfOk result (λ order. order_of (map string_bytes words.now) ≡ Some order) }
    ensures usage { result ≡ Err NoOrder.Usage → order_of (map string_bytes words.now) ≡ None }
{
    let mut line = Vec::new(alloc);
    if line.push("rsvpd").is_err() || put_words(&mut line, words).is_err() {
        return Err(NoOrder::NoMemory);
    }
    order_on(alloc, line.as_slice())
}

// Appends the words.
fn put_words<'a>(line: &mut Vec<&'a str>, words: &'a [String]) -> Result<(), AllocError>
    ensures { OnOk result (map (λ w. w.now) line.new.items ≡ map (λ w. w.now) line.old.items ++ map string_bytes words.entry.now) }
{
    for word in words {
        line.push(word.as_str())?;
    }
    Ok(())
}

// The order of a line, which begins with the program's name.
fn order_on(alloc: Global, line: &[&str]) -> Result<Order, NoOrder>
    ensures order { IfOk result (λ order. order_at (map (λ w. w.now) line.now) ≡ Some order) }
    ensures usage { result ≡ Err NoOrder.Usage → order_at (map (λ w. w.now) line.now) ≡ None }
{
    let matches = matches_on(alloc, line)?;
    let Some(verb) = matches.get_str("verb") else {
        return Err(NoOrder::Usage);
    };
    order(verb, matches.get_str("seed")).ok_or(NoOrder::Usage)
}

// What the command makes of a line.
fn matches_on<'a>(alloc: Global, line: &'a [&'a str]) -> Result<ArgMatches<'a>, NoOrder>
    ensures none { IfOk result (λ m. faults_at (map (λ w. w.now) line.entry.now) ≡ []) }
    ensures values { IfOk result (λ m. (id : List ℕ) → first_value (found_of m) id ≡ value_at id (map (λ w. w.now) line.entry.now)) }
    ensures usage { result ≡ Err NoOrder.Usage → faults_at (map (λ w. w.now) line.entry.now) ≡ [] → ⊥ }
{
    let Ok(command) = command(alloc) else {
        return Err(NoOrder::NoMemory);
    };
    match command.try_get_matches_from(line) {
        Ok(matches) => Ok(matches),
        Err(error) => match error.kind() {
            ErrorKind::OutOfMemory => Err(NoOrder::NoMemory),
            _ => Err(NoOrder::Usage),
        },
    }
}

// The command.
fn command<'a>(alloc: Global) -> Result<Command<'a>, AllocError>
    ensures { IfOk result (λ command. app_of command ≡ rsvpd) }
{
    let verb = Arg::new(alloc, "verb")
        .required(true)
        .action(ArgAction::Set);
    let seed = Arg::new(alloc, "seed").long("seed").action(ArgAction::Set);
    let plain = Command::new(alloc, "rsvpd")
        .disable_help_flag(true)
        .disable_version_flag(true);
    let command = plain.arg(verb)?.arg(seed)?;
    Ok(command)
}

// A verb and the seed that stands with it.
fn order(verb: &str, seed: Option<&str>) -> Option<Order>
    ensures { result ≡ ordered verb.now (option_map (λ s. s.now) seed.entry) }
{
    match verb {
        "replay" => unseeded(Order::Replay, seed),
        "demand" => unseeded(Order::Demand, seed),
        "show" => unseeded(Order::Show, seed),
        "grow" => grown(seed),
        "node" => unseeded(Order::Node, seed),
        "police" => unseeded(Order::Police, seed),
        _ => None,
    }
}

fn unseeded(order: Order, seed: Option<&str>) -> Option<Order>
    ensures { result ≡ unseeded order (option_map (λ s. s.now) seed.entry) }
{
    match seed {
        Some(_) => None,
        None => Some(order),
    }
}

fn grown(seed: Option<&str>) -> Option<Order>
    ensures { result ≡ grown (option_map (λ s. s.now) seed.entry) }
{
    match seed {
        Some(text) => Some(Order::Grow {
            seed: seed_of(text)?,
        }),
        None => Some(Order::Grow { seed: 1 }),
    }
}

fn seed_of(text: &str) -> Option<u64>
    ensures { result ≡ seed_of text.now }
{
    if is_numeral(text) { value(text) } else { None }
}

// Whether a text is 1 to 20 decimal digits.
fn is_numeral(text: &str) -> bool
    ensures { result ≡ is_numeral text.now }
{
    let digits = text.as_bytes();
    1 <= digits.len() && digits.len() <= 20 && has_digits_only(digits)
}

fn has_digits_only(bytes: &[u8]) -> bool
    ensures { result ≡ list_all is_ascii_digit bytes.now }
{
    bytes.iter().all(|c| c.is_ascii_digit())
}

// What digits stand for, where that is below 2^64.
fn value(digits: &str) -> Option<u64>
    requires { is_numeral digits.now ≡ true }
    ensures { result ≡ below_2_to_64 (digits_value 10 digits.now) }
{
    digits.parse::<u64>().ok()
}
