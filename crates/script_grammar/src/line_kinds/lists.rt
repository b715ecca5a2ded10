//! Words that stand for lists.
ghost use Rattle.std.specs.Prelude.{◌≡◌, IfOk, length, map};
ghost use Rattle.rsvp_base.specs.EndNames.{name_of};
ghost use Rattle.script_words.specs.Steps.{each_of};
ghost use Rattle.script_words.specs.Unread.{ReadsAs};
ghost use Rattle.script_grammar.specs.LineKinds.{bytes_of, pairs_of, stale_senders, want_senders};

use crate::line::HopEnds;
use hex::{FromHexError, decode};
use rsvp_base::{EndName, StyleKind};
use script_words::{SenderWord, Unread, addresses, senders};
use std::alloc::Global;

/// The names that these words are. `Word` exactly where one is no name.
pub fn names(alloc: Global, words: &[&[u8]]) -> Result<Vec<EndName>, Unread>
    ensures names { ReadsAs (λ v. v.items) result (each_of name_of (map (λ w. w.now) words.now)) }
    ensures count { IfOk result (λ v. length v.items ≡ length words.now) }
{
    let mut names = Vec::new(alloc);
    let mut rest = words;
    while let [word, behind @ ..] = rest {
        names.push(EndName::of(word).ok_or(Unread::Word)?)?;
        rest = behind;
    }
    Ok(names)
}

/// The hops between ends that stand in pairs. `Word` exactly where a word is no name, or one is alone.
pub fn pairs(alloc: Global, words: &[&[u8]]) -> Result<Vec<HopEnds>, Unread>
    ensures { ReadsAs (λ v. v.items) result (pairs_of (map (λ w. w.now) words.now)) }
{
    let mut hops = Vec::new(alloc);
    let mut rest = words;
    while let [from, to, behind @ ..] = rest {
        let from = EndName::of(from).ok_or(Unread::Word)?;
        let to = EndName::of(to).ok_or(Unread::Word)?;
        hops.push(HopEnds { from, to })?;
        rest = behind;
    }
    match rest {
        [] => Ok(hops),
        [_] => Err(Unread::Word),
        _ => Err(Unread::Word),
    }
}

/// The senders of a left-over reservation: for WF addresses, each with port 0.
pub fn stale_senders(
    alloc: Global,
    style: StyleKind,
    word: &[u8],
) -> Result<Vec<SenderWord>, Unread>
    ensures { ReadsAs (λ v. v.items) result (stale_senders style word.now) }
{
    match style {
        StyleKind::Wild => wild_senders(alloc, word),
        StyleKind::Fixed | StyleKind::Shared => senders(alloc, word),
    }
}

// Addresses, each with port 0.
fn wild_senders(alloc: Global, word: &[u8]) -> Result<Vec<SenderWord>, Unread>
    ensures { ReadsAs (λ v. v.items) result (stale_senders StyleKind.Wild word.now) }
{
    let quads = addresses(alloc, word)?;
    let mut senders = Vec::new(alloc);
    for addr in quads.as_slice() {
        senders.push(SenderWord {
            addr: *addr,
            port: 0,
        })?;
    }
    Ok(senders)
}

/// The senders of a want: for WF `*`, which names none.
pub fn want_senders(alloc: Global, style: StyleKind, word: &[u8]) -> Result<Vec<SenderWord>, Unread>
    ensures { ReadsAs (λ v. v.items) result (want_senders style word.now) }
{
    match style {
        StyleKind::Wild => {
            if *word != *b"*".as_slice() {
                return Err(Unread::Word);
            }
            Ok(Vec::new(alloc))
        }
        StyleKind::Fixed | StyleKind::Shared => senders(alloc, word),
    }
}

/// The bytes that these hexadecimal digits are. `Word` exactly where one is none, their number is odd, or there are none.
pub fn bytes(alloc: Global, digits: &[u8]) -> Result<Vec<u8>, Unread>
    ensures { ReadsAs (λ v. v.items) result (bytes_of digits.now) }
{
    match decode(alloc, digits) {
        Ok(bytes) => {
            if bytes.is_empty() {
                return Err(Unread::Word);
            }
            Ok(bytes)
        }
        Err(FromHexError::OutOfMemory) => Err(Unread::NoMemory),
        Err(_) => Err(Unread::Word),
    }
}
