//! Lines of part 2: what is left over.
ghost use Rattle.std.specs.Prelude.{◌≡◌, map};
ghost use Rattle.script_words.specs.Unread.{Reads, ReadsAs};
ghost use Rattle.script_grammar.specs.LineKinds.{hop_wall, path_of, resv_of, sender_wall, stale_blockade_line, stale_hop, stale_path_line, stale_resv_line, stale_sender};

use super::lists::stale_senders;
use crate::line::{
    ScriptLine, StaleHopWallLine, StalePathLine, StaleResvLine, StaleSenderWallLine,
};
use crate::list::Listed;
use rsvp_base::EndName;
use script_words::{DottedQuad, FlowWord, SenderWord, SessionWord, Unread, number, style};
use std::alloc::Global;

#[tactic(auto, unfolding(crate::specs::LineKinds::stale_path_line))]
pub fn stale_path_line(words: &[&[u8]]) -> Option<ScriptLine>
    ensures { result ≡ stale_path_line (map (λ w. w.now) words.now) }
{
    match words {
        [node, session, sender, end, addr, flow, left] => {
            path(node, session, sender, end, addr, flow, left)
        }
        _ => None,
    }
}

#[tactic(auto, unfolding(crate::specs::LineKinds::path_of))]
fn path(
    node: &[u8],
    session: &[u8],
    sender: &[u8],
    end: &[u8],
    addr: &[u8],
    flow: &[u8],
    left: &[u8],
) -> Option<ScriptLine>
    ensures { result ≡ path_of node.now session.now sender.now end.now addr.now flow.now left.now }
{
    Some(ScriptLine::StalePath(StalePathLine {
        node: EndName::of(node)?,
        session: SessionWord::of(session)?,
        sender: SenderWord::of(sender)?,
        end: EndName::of(end)?,
        hop: DottedQuad::of(addr)?,
        flow: FlowWord::of(flow)?,
        left: number(left)?,
    }))
}

#[tactic(auto, unfolding(crate::specs::LineKinds::stale_resv_line))]
pub fn stale_resv_line(alloc: Global, words: &[&[u8]]) -> Result<ScriptLine, Unread>
    ensures { Reads result (stale_resv_line (map (λ w. w.now) words.now)) }
{
    match words {
        [end, session, kind, addr, senders, flow, left] => resv(
            alloc,
            ResvWords {
                end,
                session,
                kind,
                addr,
                senders,
                flow,
                left,
            },
        ),
        _ => Err(Unread::Word),
    }
}

// The words of a line behind `stale-resv`.
#[derive(Drop)]
struct ResvWords<'a> {
    end: &'a [u8],
    session: &'a [u8],
    kind: &'a [u8],
    addr: &'a [u8],
    senders: &'a [u8],
    flow: &'a [u8],
    left: &'a [u8],
}

#[tactic(auto, unfolding(crate::specs::LineKinds::resv_of))]
fn resv(alloc: Global, words: ResvWords) -> Result<ScriptLine, Unread>
    ensures { Reads result (resv_of words.entry.end.now words.entry.session.now words.entry.kind.now words.entry.addr.now words.entry.senders.now words.entry.flow.now words.entry.left.now) }
{
    let end = EndName::of(words.end).ok_or(Unread::Word)?;
    let session = SessionWord::of(words.session).ok_or(Unread::Word)?;
    let style = style(words.kind).ok_or(Unread::Word)?;
    let next = DottedQuad::of(words.addr).ok_or(Unread::Word)?;
    let senders = Listed::of(stale_senders(alloc, style, words.senders)?);
    let flow = FlowWord::of(words.flow).ok_or(Unread::Word)?;
    let left = number(words.left).ok_or(Unread::Word)?;
    Ok(ScriptLine::StaleResv(StaleResvLine {
        end,
        session,
        style,
        next,
        senders,
        flow,
        left,
    }))
}

#[tactic(auto, unfolding(crate::specs::LineKinds::stale_blockade_line))]
pub fn stale_blockade_line(words: &[&[u8]]) -> Option<ScriptLine>
    ensures { result ≡ stale_blockade_line (map (λ w. w.now) words.now) }
{
    let [node, session, target, behind @ ..] = words else {
        return None;
    };
    match *target {
        b"hop" => stale_hop(node, session, behind),
        b"sender" => stale_sender(node, session, behind),
        _ => None,
    }
}

#[tactic(auto, unfolding(crate::specs::LineKinds::stale_hop))]
fn stale_hop(node: &[u8], session: &[u8], words: &[&[u8]]) -> Option<ScriptLine>
    ensures { result ≡ stale_hop node.now session.now (map (λ w. w.now) words.now) }
{
    match words {
        [end, addr, sub, flow, left] => hop_wall(node, session, end, addr, sub, flow, left),
        _ => None,
    }
}

#[tactic(auto, unfolding(crate::specs::LineKinds::stale_sender))]
fn stale_sender(node: &[u8], session: &[u8], words: &[&[u8]]) -> Option<ScriptLine>
    ensures { result ≡ stale_sender node.now session.now (map (λ w. w.now) words.now) }
{
    match words {
        [sender, sub, flow, left] => sender_wall(node, session, sender, sub, flow, left),
        _ => None,
    }
}

#[tactic(auto, unfolding(crate::specs::LineKinds::hop_wall))]
fn hop_wall(
    node: &[u8],
    session: &[u8],
    end: &[u8],
    addr: &[u8],
    sub: &[u8],
    flow: &[u8],
    left: &[u8],
) -> Option<ScriptLine>
    ensures { result ≡ hop_wall node.now session.now end.now addr.now sub.now flow.now left.now }
{
    Some(ScriptLine::StaleHopWall(StaleHopWallLine {
        node: EndName::of(node)?,
        session: SessionWord::of(session)?,
        end: EndName::of(end)?,
        hop: DottedQuad::of(addr)?,
        sub: number(sub)?,
        flow: FlowWord::of(flow)?,
        left: number(left)?,
    }))
}

#[tactic(auto, unfolding(crate::specs::LineKinds::sender_wall))]
fn sender_wall(
    node: &[u8],
    session: &[u8],
    sender: &[u8],
    sub: &[u8],
    flow: &[u8],
    left: &[u8],
) -> Option<ScriptLine>
    ensures { result ≡ sender_wall node.now session.now sender.now sub.now flow.now left.now }
{
    Some(ScriptLine::StaleSenderWall(StaleSenderWallLine {
        node: EndName::of(node)?,
        session: SessionWord::of(session)?,
        sender: SenderWord::of(sender)?,
        sub: number(sub)?,
        flow: FlowWord::of(flow)?,
        left: number(left)?,
    }))
}
