//! What the words of a line say.
ghost use Rattle.std.specs.Prelude.{◌≡◌, IfSome};
ghost use Rattle.script_words.specs.Words.{words_of};
ghost use Rattle.load_policer.specs.Grammar.{IsPlaced, flow_line, in_place, is_flow_word, line_behind, number_line, packet_line_of, pair_line, said_by};

use crate::line::PacketLine;
use crate::words::first_word;
use script_words::{FlowWord, number};

/// What a line says behind lines with the flow, or without it. `None` exactly where it has another number of words, a word is not of
/// its form, or it stands at the wrong place.
pub fn line_behind(has_flow: bool, line: &[u8]) -> Option<PacketLine>
    ensures said { result ≡ line_behind has_flow line.now }
    ensures place { IfSome result (IsPlaced has_flow) }
{
    in_place(has_flow, packet_line_of(line)?)
}

/// Whether a word is `flow`.
pub fn is_flow_word(word: &[u8]) -> bool
    ensures { result ≡ is_flow_word word.now }
{
    word == b"flow".as_slice()
}

// What a line says at its place.
fn in_place(has_flow: bool, said: PacketLine) -> Option<PacketLine>
    ensures said { result ≡ in_place has_flow said }
    ensures place { IfSome result (IsPlaced has_flow) }
{
    match said {
        PacketLine::Skipped => Some(said),
        PacketLine::Flow(_) if has_flow => None,
        PacketLine::Flow(_) => Some(said),
        PacketLine::Packet { .. } if has_flow => Some(said),
        PacketLine::Packet { .. } => None,
    }
}

fn packet_line_of(line: &[u8]) -> Option<PacketLine>
    ensures { result ≡ packet_line_of line.now }
{
    if line.first() == Some(&b'#') {
        return Some(PacketLine::Skipped);
    }
    said_by(line)
}

#[tactic(auto, using(crate::proofs::LineLaws::one_word, crate::proofs::LineLaws::pair_of_words, crate::proofs::LineLaws::many_words))]
fn said_by(line: &[u8]) -> Option<PacketLine>
    ensures { result ≡ said_by (words_of line.now) }
{
    let Some((first, behind)) = first_word(line) else {
        return Some(PacketLine::Skipped);
    };
    let (second, rest) = first_word(behind)?;
    match first_word(rest) {
        Some(_) => None,
        None => pair_line(first, second),
    }
}

fn pair_line(first: &[u8], second: &[u8]) -> Option<PacketLine>
    ensures { result ≡ pair_line first.now second.now }
{
    if is_flow_word(first) {
        return flow_line(second);
    }
    number_line(first, second)
}

#[tactic(auto, unfolding(crate::specs::Grammar::flow_line))]
fn flow_line(flow: &[u8]) -> Option<PacketLine>
    ensures { result ≡ flow_line flow.now }
{
    Some(PacketLine::Flow(FlowWord::of(flow)?))
}

#[tactic(auto, unfolding(crate::specs::Grammar::number_line))]
fn number_line(micros: &[u8], bytes: &[u8]) -> Option<PacketLine>
    ensures { result ≡ number_line micros.now bytes.now }
{
    let at = number(micros)?;
    let size = number(bytes)?;
    Some(PacketLine::Packet { at, size })
}
