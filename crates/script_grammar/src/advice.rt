//! The line of text that tells what is wrong with a line.
ghost use Rattle.std.specs.Prelude.{◌≡◌, ◌<◌, ◌≤◌, ◌++◌, ℕ, List, OnErr, OnOk, length, vec_capacity};
ghost use Rattle.std.specs.Fmt.{decimal};
ghost use Rattle.script_grammar.specs.Draft.{Draft};
ghost use Rattle.script_grammar.specs.Grammar.{most_line};
ghost use Rattle.script_grammar.specs.declared.fault.Fault.{Fault as AFault};
ghost use Rattle.line_advice.specs.Blamed.{most_advice};
ghost use Rattle.value_texts.specs.Texts.{style_text};
ghost use Rattle.script_grammar.specs.Advice.{IsAdvice, IsAdviceOrNone, capacity_head, excess_text, excess_word, number_of_word, style_head, sum_head, wanted_text};

use crate::blame::{Blame, find_blame};
use crate::fault::Fault;
use crate::known::{LinesBefore, named_text};
use crate::texts::{first_text, form_text, put_range, rule_text, rule_word, usage_text};
use crate::tree_blames::hop_text;
use crate::wanted::wanted_is_short;
use itoa::Buffer;
use line_advice::{Blames, put_blamed_line, put_flow_fault};
use network_model::Excess;
use rsvp_base::{NoMemory, StyleKind};
use std::alloc::Global;
use value_texts::{put, put_number, put_style};

/// Makes `advice`, for which there is room, the text that tells what is wrong with a line that has this fault, without a line feed: two
/// spaces, the column and the word that is to blame, if it is one, and what is wanted. `before` are the lines before. `NoMemory`, of a
/// line that has this fault only where it asks for memory: there was no room to look at them, and `advice` is empty.
#[tactic(auto, using(crate::proofs::Advising::advice_so))]
pub fn put_advice<B: LinesBefore>(
    alloc: Global,
    before: &B,
    line: &[u8],
    why: &Fault,
    advice: &mut Vec<u8>,
) -> Result<(), NoMemory>
    requires room { most_advice ≤ vec_capacity advice.old }
    ensures { IsAdviceOrNone (B.lines before.now) line.now why.now result advice.new.items }
{
    match find_blame(alloc, before, line, why) {
        Some(blame) => {
            put_blamed_line(advice, line, &blame);
            Ok(())
        }
        None => {
            advice.clear();
            Err(NoMemory)
        }
    }
}

/// The same of a line of more than 2,048 bytes, whatever these are.
#[tactic(auto, using(crate::proofs::Advising::long_so))]
pub fn put_long(advice: &mut Vec<u8>)
    requires room { most_advice ≤ vec_capacity advice.old }
    ensures { (d : Draft) (line : List ℕ) (why : AFault) → most_line < length line → IsAdvice d line why advice.new.items }
{
    put_blamed_line(advice, b"", &Blame::Long)
}

impl Blames for Blame {
    ghost use Rattle.script_grammar.specs.Advice.{number_of_word, wanted_text};

    ghost number = { number_of_word };

    ghost wanted = { wanted_text };

    fn number_of_word(&self) -> Option<usize> {
        number_of_word(*self)
    }

    fn is_short(&self) {
        wanted_is_short(*self)
    }

    fn put_wanted(&self, out: &mut Vec<u8>) -> Result<(), NoMemory> {
        put_wanted(out, *self)
    }
}

// Appends what is wanted.
fn put_wanted(out: &mut Vec<u8>, blame: Blame) -> Result<(), NoMemory>
    ensures text { OnOk result (out.new.items ≡ out.old.items ++ wanted_text blame) }
    ensures full { OnErr result (vec_capacity out.old < length (out.old.items ++ wanted_text blame)) }
    ensures kept { vec_capacity out.old ≤ vec_capacity out.new }
{
    match blame {
        Blame::Returns => put(
            out,
            b"a line ends with a line feed, and here carriage returns stand in its place",
        ),
        Blame::First => put(out, first_text()),
        Blame::Comment { word: _ } => put(
            out,
            b"a comment is a line of its own, and # is its very first byte",
        ),
        Blame::Count(kind) => put(out, usage_text(kind)),
        Blame::Form { word: _, field } => put(out, form_text(field)),
        Blame::Range {
            word: _,
            field,
            period,
        } => put_range(out, period, field),
        Blame::Flow { word: _, fault } => put_flow_fault(out, fault),
        Blame::Unknown { word: _, named } => put(out, named_text(named)),
        Blame::Linked { word: _ } => put(
            out,
            b"an end is in one link at most, and an earlier line has this one",
        ),
        Blame::Styled(style) => put_styled(out, style),
        Blame::Over(much) => put_excess(out, much),
        Blame::Long => put(
            out,
            b"a line has at most 2048 bytes, and ends with a line feed",
        ),
        Blame::Hop { word: _, why } => put(out, hop_text(why)),
        Blame::Rule { rule, kind } => put(out, rule_text(rule, kind)),
    }
}

// Appends what style stands.
fn put_styled(out: &mut Vec<u8>, style: StyleKind) -> Result<(), NoMemory>
    ensures text { OnOk result (out.new.items ≡ out.old.items ++ (style_head ++ style_text style)) }
    ensures full { OnErr result (vec_capacity out.old < length (out.old.items ++ (style_head ++ style_text style))) }
    ensures kept { vec_capacity out.old ≤ vec_capacity out.new }
{
    put(out, style_head())?;
    put_style(out, style)
}

// Appends what an end has, and where it is a capacity, what is asked of it.
fn put_excess(out: &mut Vec<u8>, much: Excess) -> Result<(), NoMemory>
    ensures text { OnOk result (out.new.items ≡ out.old.items ++ excess_text much) }
    ensures full { OnErr result (vec_capacity out.old < length (out.old.items ++ excess_text much)) }
    ensures kept { vec_capacity out.old ≤ vec_capacity out.new }
{
    match much {
        Excess::Packet { most: _, mtu } => {
            put(out, b"M is at most the MTU of END, ")?;
            put_number(out, u64::from(mtu))
        }
        Excess::Rate { sum, capacity } => {
            put(out, capacity_head())?;
            put_number(out, capacity)?;
            put(out, sum_head())?;
            put_sum(out, sum)
        }
    }
}

// Appends a sum in decimal digits.
fn put_sum(out: &mut Vec<u8>, sum: u128) -> Result<(), NoMemory>
    ensures text { OnOk result (out.new.items ≡ out.old.items ++ decimal sum) }
    ensures full { OnErr result (vec_capacity out.old < length (out.old.items ++ decimal sum)) }
    ensures kept { vec_capacity out.old ≤ vec_capacity out.new }
{
    let mut buffer = Buffer::new();
    put(out, buffer.format(sum).as_bytes())
}

fn number_of_word(blame: Blame) -> Option<usize>
    ensures { result ≡ number_of_word blame }
{
    match blame {
        Blame::First => Some(0),
        Blame::Comment { word } => Some(word),
        Blame::Form { word, field: _ } => Some(word),
        Blame::Range { word, .. } => Some(word),
        Blame::Flow { word, fault: _ } => Some(word),
        Blame::Unknown { word, named: _ } => Some(word),
        Blame::Linked { word } => Some(word),
        Blame::Styled(_) => Some(3),
        Blame::Hop { word, why: _ } => Some(word),
        Blame::Over(much) => excess_word(much),
        Blame::Rule { rule, kind } => rule_word(rule, kind),
        _ => None,
    }
}

// The flow, where its packets are too large.
fn excess_word(much: Excess) -> Option<usize>
    ensures { result ≡ excess_word much }
{
    match much {
        Excess::Packet { .. } => Some(6),
        Excess::Rate { .. } => None,
    }
}

#[tactic(auto, unfolding(crate::specs::Advice::capacity_head))]
fn capacity_head() -> &'static [u8]
    ensures { result.now ≡ capacity_head }
{
    b"the rates of the reservations on END are together at most its CAPACITY, "
}

#[tactic(auto, unfolding(crate::specs::Advice::sum_head))]
fn sum_head() -> &'static [u8]
    ensures { result.now ≡ sum_head }
{
    b"; with this one they are "
}

#[tactic(auto, unfolding(crate::specs::Advice::style_head))]
fn style_head() -> &'static [u8]
    ensures { result.now ≡ style_head }
{
    b"the wishes of NODE in this session are of the style "
}
