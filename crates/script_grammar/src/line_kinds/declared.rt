//! Lines of part 1: what is declared.
ghost use Rattle.std.specs.Prelude.{◌≡◌, map};
ghost use Rattle.script_words.specs.Unread.{Reads};
ghost use Rattle.script_grammar.specs.LineKinds.{end_line, hop_line, latency_line, link_line, node_line, period_line, seed_line};

use super::lists::names;
use crate::line::{EndLine, HopEnds, HopLine, LatencyLine, ScriptLine};
use crate::list::LinkEnds;
use rsvp_base::EndName;
use script_words::{DottedQuad, Unread, number};
use std::alloc::Global;

#[tactic(auto, unfolding(crate::specs::LineKinds::period_line))]
pub fn period_line(words: &[&[u8]]) -> Option<ScriptLine>
    ensures { result ≡ period_line (map (λ w. w.now) words.now) }
{
    match words {
        [ms] => Some(ScriptLine::Period(number(ms)?)),
        _ => None,
    }
}

#[tactic(auto, unfolding(crate::specs::LineKinds::seed_line))]
pub fn seed_line(words: &[&[u8]]) -> Option<ScriptLine>
    ensures { result ≡ seed_line (map (λ w. w.now) words.now) }
{
    match words {
        [seed] => Some(ScriptLine::Seed(number(seed)?)),
        _ => None,
    }
}

#[tactic(auto, unfolding(crate::specs::LineKinds::node_line))]
pub fn node_line(words: &[&[u8]]) -> Option<ScriptLine>
    ensures { result ≡ node_line (map (λ w. w.now) words.now) }
{
    match words {
        [name] => Some(ScriptLine::Node(EndName::of(name)?)),
        _ => None,
    }
}

#[tactic(auto, unfolding(crate::specs::LineKinds::end_line))]
pub fn end_line(words: &[&[u8]]) -> Option<ScriptLine>
    ensures { result ≡ end_line (map (λ w. w.now) words.now) }
{
    match words {
        [name, node, addr, capacity, mtu] => Some(ScriptLine::End(EndLine {
            name: EndName::of(name)?,
            node: EndName::of(node)?,
            addr: DottedQuad::of(addr)?,
            capacity: number(capacity)?,
            mtu: number(mtu)?,
        })),
        _ => None,
    }
}

#[tactic(auto, unfolding(crate::specs::LineKinds::latency_line))]
pub fn latency_line(words: &[&[u8]]) -> Option<ScriptLine>
    ensures { result ≡ latency_line (map (λ w. w.now) words.now) }
{
    match words {
        [end, latency] => Some(ScriptLine::Latency(LatencyLine {
            end: EndName::of(end)?,
            latency: number(latency)?,
        })),
        _ => None,
    }
}

#[tactic(auto, unfolding(crate::specs::LineKinds::hop_line))]
pub fn hop_line(words: &[&[u8]]) -> Option<ScriptLine>
    ensures { result ≡ hop_line (map (λ w. w.now) words.now) }
{
    match words {
        [group, source, from, to] => Some(ScriptLine::Hop(HopLine {
            group: DottedQuad::of(group)?,
            source: DottedQuad::of(source)?,
            ends: HopEnds {
                from: EndName::of(from)?,
                to: EndName::of(to)?,
            },
        })),
        _ => None,
    }
}

#[tactic(auto, unfolding(crate::specs::LineKinds::link_line))]
pub fn link_line(alloc: Global, words: &[&[u8]]) -> Result<ScriptLine, Unread>
    ensures { Reads result (link_line (map (λ w. w.now) words.now)) }
{
    if words.len() < 2 || words.len() > 8 {
        return Err(Unread::Word);
    }
    Ok(ScriptLine::Link(LinkEnds::of(names(alloc, words)?)))
}
