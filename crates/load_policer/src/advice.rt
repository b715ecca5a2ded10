//! The line of text that says what is wrong with a line.
ghost use Rattle.std.specs.Prelude.{◌≡◌, ◌≤◌, ◌<◌, ◌++◌, ℕ, List, OnErr, OnOk, length, vec_capacity};
ghost use Rattle.script_words.specs.declared.fault.LineWhy.TheVariants as fault;
ghost use Rattle.line_advice.specs.Blamed.{most_advice, most_wanted};
ghost use Rattle.load_policer.specs.Advice.{IsAdvice, IsAdviceFor, early_text, wanted_text};
ghost use Rattle.load_policer.specs.Drafts.{Draft};
ghost use Rattle.load_policer.specs.Standings.{Stands};

use crate::blame::{Blame, blame_of, number_of_word};
use crate::standing::Standing;
use line_advice::{Blames, put_blamed_line};
use rsvp_base::NoMemory;
use script_words::LineWhy;
use value_texts::{put, put_number};

/// Makes `advice`, for which there is room, the text that says what is wrong with a line that has this fault, without a line feed: two
/// spaces, the column and the word that is to blame, if one is, and what is wanted.
#[tactic(auto, using(crate::proofs::Fed::advice_so))]
pub fn put_advice(standing: &Standing, line: &[u8], why: LineWhy, advice: &mut Vec<u8>)
    requires room { most_advice ≤ vec_capacity advice.old }
    ensures { (d : Draft) → Stands standing.now d → IsAdvice d line.now why advice.new.items }
{
    put_advice_for(standing.policer.is_some(), standing.last, line, why, advice)
}

// The same behind lines with the flow or without it, the last packet of which came at this time.
fn put_advice_for(has_flow: bool, last: u64, line: &[u8], why: LineWhy, advice: &mut Vec<u8>)
    requires room { most_advice ≤ vec_capacity advice.old }
    ensures { IsAdviceFor has_flow last line.now why advice.new.items }
{
    put_blamed_line(advice, line, &blame_of(has_flow, last, line, why))
}

/// The same of a line of more than 2,048 bytes, whatever these are.
pub fn put_long(advice: &mut Vec<u8>)
    requires room { most_advice ≤ vec_capacity advice.old }
    ensures { (d : Draft) (line : List ℕ) → IsAdvice d line fault.Limit advice.new.items }
{
    put_blamed_line(advice, b"", &Blame::Long)
}

impl Blames for Blame {
    ghost use Rattle.load_policer.specs.Advice.{number_of_word, wanted_text};

    ghost number = { number_of_word };

    ghost wanted = { wanted_text };

    fn number_of_word(&self) -> Option<usize> {
        number_of_word(*self)
    }

    fn is_short(&self) {
        wanted_is_short(*self)
    }

    fn put_wanted(&self, out: &mut Vec<u8>) -> Result<(), NoMemory> {
        put_wanted(out, *self)
    }
}

// Does nothing: what is wanted has at most 512 bytes.
#[tactic(auto, using(crate::proofs::Short::wanted_short))]
fn wanted_is_short(blame: Blame)
    ensures { length (wanted_text blame) ≤ most_wanted }
{
    match blame {
        Blame::Early { last } => early_is_short(last),
        _ => {}
    }
}

#[tactic(auto, using(crate::proofs::Short::early_short))]
fn early_is_short(last: u64)
    ensures { length (early_text last) ≤ most_wanted }
{
    let _ = last;
}

// Appends what is wanted.
fn put_wanted(out: &mut Vec<u8>, blame: Blame) -> Result<(), NoMemory>
    ensures text { OnOk result (out.new.items ≡ out.old.items ++ wanted_text blame) }
    ensures full { OnErr result (vec_capacity out.old < length (out.old.items ++ wanted_text blame)) }
    ensures kept { vec_capacity out.old ≤ vec_capacity out.new }
{
    match blame {
        Blame::Long => put(out, b"a line has at most 2048 bytes"),
        Blame::NoFlow => put(out, b"the first line is that of the flow: flow FLOW"),
        Blame::SecondFlow => put(out, b"the flow stands once, before all packets"),
        Blame::FlowCount { .. } => put(out, b"a flow line is: flow FLOW"),
        Blame::FlowForm => put(
            out,
            b"a flow is r/b/p/m/M: five numbers, of which p may be inf",
        ),
        Blame::FlowRange => put(
            out,
            b"r and b are rates of at least 1, p is a rate or inf, m is from 1 to M, M at most 4294967295; a rate is below 70368744177664 and has no two set bits more than 23 places apart",
        ),
        Blame::PacketCount { .. } => put(out, b"a packet line is: MICROSECONDS BYTES"),
        Blame::TimeForm => put(
            out,
            b"microseconds, without a unit: a number is 0, or 1 to 20 digits of which the first is not 0",
        ),
        Blame::TimeRange => put(out, b"a time is at most 9223372036854775807 microseconds"),
        Blame::Early { last } => put_early(out, last),
        Blame::SizeForm => put(
            out,
            b"bytes, without a unit: a number is 0, or 1 to 20 digits of which the first is not 0",
        ),
        Blame::SizeRange => put(out, b"a packet has 1 to 65535 bytes"),
    }
}

#[tactic(auto, unfolding(crate::specs::Advice::early_text))]
fn put_early(out: &mut Vec<u8>, last: u64) -> Result<(), NoMemory>
    ensures text { OnOk result (out.new.items ≡ out.old.items ++ early_text last) }
    ensures full { OnErr result (vec_capacity out.old < length (out.old.items ++ early_text last)) }
    ensures kept { vec_capacity out.old ≤ vec_capacity out.new }
{
    put(out, b"the packet before came at ")?;
    put_number(out, last)?;
    put(out, b" microseconds, and none comes before it")
}
