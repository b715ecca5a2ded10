//! What of a bad line breaks the rule.
ghost use Rattle.std.specs.Prelude.{◌≡◌};
ghost use Rattle.load_policer.specs.Advice.{blame_of, first_of, flow_blame, form_blame, has_word, number_of_word, packet_blame, range_blame, size_or_time, word_blame};

use crate::line::END_OF_TIME;
use crate::reading::is_flow_word;
use script_words::{LineWhy, number};
use value_texts::word_at;

/// What of a bad line breaks the rule. Words have numbers from 0.
#[derive(Clone, Copy)]
pub enum Blame {
    /// Its length.
    Long,
    /// Its first word, which is not `flow` though no line before gives the flow.
    NoFlow,
    /// Its first word, which is `flow` though a line before gives the flow.
    SecondFlow,
    /// The word of this number: too many, or the last of too few for a line of the flow.
    FlowCount { word: usize },
    /// Its flow, which has not the form of one.
    FlowForm,
    /// Its flow, which is out of range.
    FlowRange,
    /// The word of this number: too many, or the last of too few for a line of a packet.
    PacketCount { word: usize },
    /// Its time, which is no number.
    TimeForm,
    /// Its time, which is out of range.
    TimeRange,
    /// Its time, which is before this one, that of the packet before.
    Early { last: u64 },
    /// Its size, which is no number.
    SizeForm,
    /// Its size, which is out of range.
    SizeRange,
}

/// What is to blame for this fault of a line behind lines with the flow, or without it, of which the last packet came at this time.
pub fn blame_of(has_flow: bool, last: u64, line: &[u8], why: LineWhy) -> Blame
    ensures { result ≡ blame_of has_flow last line.now why }
{
    match why {
        LineWhy::Word => word_blame(has_flow, line),
        LineWhy::Late => Blame::Early { last },
        LineWhy::Range => range_blame(first_of(line)),
        _ => Blame::Long,
    }
}

/// The number of the word that is to blame, if one is.
pub fn number_of_word(blame: Blame) -> Option<usize>
    ensures { result ≡ number_of_word blame }
{
    match blame {
        Blame::Long => None,
        Blame::FlowCount { word } => Some(word),
        Blame::PacketCount { word } => Some(word),
        Blame::FlowForm => Some(1),
        Blame::FlowRange => Some(1),
        Blame::SizeForm => Some(1),
        Blame::SizeRange => Some(1),
        Blame::NoFlow => Some(0),
        Blame::SecondFlow => Some(0),
        Blame::TimeForm => Some(0),
        Blame::TimeRange => Some(0),
        Blame::Early { .. } => Some(0),
    }
}

// Of a line of which a word, or its place, is wrong.
fn word_blame(has_flow: bool, line: &[u8]) -> Blame
    ensures { result ≡ word_blame has_flow (first_of line.now) (has_word line.now 1) (has_word line.now 2) }
{
    let first = first_of(line);
    let second = has_word(line, 1);
    let third = has_word(line, 2);
    match (has_flow, is_flow_word(first)) {
        (true, true) => Blame::SecondFlow,
        (true, false) => packet_blame(first, second, third),
        (false, true) => flow_blame(second, third),
        (false, false) => Blame::NoFlow,
    }
}

fn flow_blame(second: bool, third: bool) -> Blame
    ensures { result ≡ flow_blame second third }
{
    match (second, third) {
        (_, true) => Blame::FlowCount { word: 2 },
        (false, false) => Blame::FlowCount { word: 0 },
        (true, false) => Blame::FlowForm,
    }
}

fn packet_blame(first: &[u8], second: bool, third: bool) -> Blame
    ensures { result ≡ packet_blame first.now second third }
{
    match (second, third) {
        (_, true) => Blame::PacketCount { word: 2 },
        (false, false) => Blame::PacketCount { word: 0 },
        (true, false) => form_blame(first),
    }
}

// Of a line of a packet with two words.
fn form_blame(first: &[u8]) -> Blame
    ensures { result ≡ form_blame first.now }
{
    if number(first).is_some() {
        return Blame::SizeForm;
    }
    Blame::TimeForm
}

// Of a line with a number out of range.
fn range_blame(first: &[u8]) -> Blame
    ensures { result ≡ range_blame first.now }
{
    if is_flow_word(first) {
        return Blame::FlowRange;
    }
    size_or_time(number(first))
}

fn size_or_time(at: Option<u128>) -> Blame
    ensures { result ≡ size_or_time at }
{
    match at {
        Some(micros) if micros >= END_OF_TIME => Blame::TimeRange,
        _ => Blame::SizeRange,
    }
}

// The first word of a line; nothing, where it has none.
fn first_of(line: &[u8]) -> &[u8]
    ensures { result.now ≡ first_of line.now }
{
    match word_at(line, 0) {
        Some((_, word)) => word,
        None => &[],
    }
}

// Whether a line has a word of this number.
fn has_word(line: &[u8], number: usize) -> bool
    ensures { result ≡ has_word line.now number }
{
    word_at(line, number).is_some()
}
