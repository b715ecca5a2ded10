//! Lines of part 3: what happens.
ghost use Rattle.std.specs.Prelude.{◌≡◌, map};
ghost use Rattle.script_words.specs.Unread.{Reads, ReadsAs};
ghost use Rattle.script_grammar.specs.LineKinds.{advert_line, adverts_line, clear_line, drop_line, flags_line, inject_line, lone_number, numbered};
ghost use Rattle.script_grammar.specs.LineKinds.{pass_line, quit_line, report_line, reroute_line, send_line};
ghost use Rattle.script_grammar.specs.LineKinds.{trace_line, want_line, want_of};
ghost use Rattle.script_grammar.specs.declared.line.ScriptLine.TheVariants as kind;

use super::lists::{bytes, pairs, want_senders};
use crate::line::{InjectLine, QuitLine, RerouteLine, ScriptLine, SendLine, SenderLine, WantLine};
use crate::list::Listed;
use rsvp_base::EndName;
use script_words::{DottedQuad, FlowWord, SenderWord, SessionWord, Unread, number, style};
use std::alloc::Global;

#[tactic(auto, unfolding(crate::specs::LineKinds::send_line))]
pub fn send_line(words: &[&[u8]]) -> Option<ScriptLine>
    ensures { result ≡ send_line (map (λ w. w.now) words.now) }
{
    match words {
        [node, session, sender, flow] => Some(ScriptLine::Send(SendLine {
            node: EndName::of(node)?,
            session: SessionWord::of(session)?,
            sender: SenderWord::of(sender)?,
            flow: FlowWord::of(flow)?,
        })),
        _ => None,
    }
}

#[tactic(auto, unfolding(crate::specs::LineKinds::advert_line))]
pub fn advert_line(words: &[&[u8]]) -> Option<ScriptLine>
    ensures { result ≡ advert_line (map (λ w. w.now) words.now) }
{
    match words {
        [node, session, sender] => Some(ScriptLine::Advert(SenderLine {
            node: EndName::of(node)?,
            session: SessionWord::of(session)?,
            sender: SenderWord::of(sender)?,
        })),
        _ => None,
    }
}

#[tactic(auto, unfolding(crate::specs::LineKinds::drop_line))]
pub fn drop_line(words: &[&[u8]]) -> Option<ScriptLine>
    ensures { result ≡ drop_line (map (λ w. w.now) words.now) }
{
    match words {
        [node, session, sender] => Some(ScriptLine::Drop(SenderLine {
            node: EndName::of(node)?,
            session: SessionWord::of(session)?,
            sender: SenderWord::of(sender)?,
        })),
        _ => None,
    }
}

#[tactic(auto, unfolding(crate::specs::LineKinds::want_line))]
pub fn want_line(alloc: Global, words: &[&[u8]]) -> Result<ScriptLine, Unread>
    ensures { Reads result (want_line (map (λ w. w.now) words.now)) }
{
    match words {
        [node, session, style, senders, flow] => {
            want(alloc, node, session, style, senders, flow, false)
        }
        [node, session, style, senders, flow, confirm] => {
            if *confirm != b"confirm".as_slice() {
                return Err(Unread::Word);
            }
            want(alloc, node, session, style, senders, flow, true)
        }
        _ => Err(Unread::Word),
    }
}

#[tactic(auto, unfolding(crate::specs::LineKinds::want_of))]
fn want(
    alloc: Global,
    node: &[u8],
    session: &[u8],
    kind: &[u8],
    senders: &[u8],
    flow: &[u8],
    confirm: bool,
) -> Result<ScriptLine, Unread>
    ensures { Reads result (want_of node.now session.now kind.now senders.now flow.now confirm) }
{
    let node = EndName::of(node).ok_or(Unread::Word)?;
    let session = SessionWord::of(session).ok_or(Unread::Word)?;
    let style = style(kind).ok_or(Unread::Word)?;
    let senders = Listed::of(want_senders(alloc, style, senders)?);
    let flow = FlowWord::of(flow).ok_or(Unread::Word)?;
    Ok(ScriptLine::Want(WantLine {
        node,
        session,
        style,
        senders,
        flow,
        confirm,
    }))
}

#[tactic(auto, unfolding(crate::specs::LineKinds::quit_line))]
pub fn quit_line(words: &[&[u8]]) -> Option<ScriptLine>
    ensures { result ≡ quit_line (map (λ w. w.now) words.now) }
{
    match words {
        [node, session] => Some(ScriptLine::Quit(QuitLine {
            node: EndName::of(node)?,
            session: SessionWord::of(session)?,
        })),
        _ => None,
    }
}

pub fn wait_line(words: &[&[u8]]) -> Option<ScriptLine>
    ensures { result ≡ numbered kind.Wait (map (λ w. w.now) words.now) }
{
    Some(ScriptLine::Wait(lone_number(words)?))
}

pub fn deliver_line(words: &[&[u8]]) -> Option<ScriptLine>
    ensures { result ≡ numbered kind.Deliver (map (λ w. w.now) words.now) }
{
    Some(ScriptLine::Deliver(lone_number(words)?))
}

pub fn lose_line(words: &[&[u8]]) -> Option<ScriptLine>
    ensures { result ≡ numbered kind.Lose (map (λ w. w.now) words.now) }
{
    Some(ScriptLine::Lose(lone_number(words)?))
}

pub fn copy_line(words: &[&[u8]]) -> Option<ScriptLine>
    ensures { result ≡ numbered kind.Copy (map (λ w. w.now) words.now) }
{
    Some(ScriptLine::Copy(lone_number(words)?))
}

pub fn rounds_line(words: &[&[u8]]) -> Option<ScriptLine>
    ensures { result ≡ numbered kind.Rounds (map (λ w. w.now) words.now) }
{
    Some(ScriptLine::Rounds(lone_number(words)?))
}

// The number that is the only word.
fn lone_number(words: &[&[u8]]) -> Option<u128>
    ensures { result ≡ lone_number (map (λ w. w.now) words.now) }
{
    match words {
        [word] => number(word),
        _ => None,
    }
}

#[tactic(auto, unfolding(crate::specs::LineKinds::pass_line))]
pub fn pass_line(words: &[&[u8]]) -> Option<ScriptLine>
    ensures { result ≡ pass_line (map (λ w. w.now) words.now) }
{
    match words {
        [] => Some(ScriptLine::Pass(1)),
        [times] => Some(ScriptLine::Pass(number(times)?)),
        _ => None,
    }
}

#[tactic(auto, unfolding(crate::specs::LineKinds::clear_line))]
pub fn clear_line(words: &[&[u8]]) -> Option<ScriptLine>
    ensures { result ≡ clear_line (map (λ w. w.now) words.now) }
{
    match words {
        [node] => Some(ScriptLine::Clear(EndName::of(node)?)),
        _ => None,
    }
}

#[tactic(auto, unfolding(crate::specs::LineKinds::trace_line))]
pub fn trace_line(words: &[&[u8]]) -> Option<ScriptLine>
    ensures { result ≡ trace_line (map (λ w. w.now) words.now) }
{
    let [word] = words else {
        return None;
    };
    match *word {
        b"on" => Some(ScriptLine::Trace(true)),
        b"off" => Some(ScriptLine::Trace(false)),
        _ => None,
    }
}

#[tactic(auto, unfolding(crate::specs::LineKinds::report_line))]
pub fn report_line(words: &[&[u8]]) -> Option<ScriptLine>
    ensures { result ≡ report_line (map (λ w. w.now) words.now) }
{
    match words {
        [] => Some(ScriptLine::Report),
        [end] => Some(ScriptLine::ReportEnd(EndName::of(end)?)),
        _ => None,
    }
}

#[tactic(auto, unfolding(crate::specs::LineKinds::flags_line))]
pub fn flags_line(words: &[&[u8]]) -> Option<ScriptLine>
    ensures { result ≡ flags_line (map (λ w. w.now) words.now) }
{
    match words {
        [] => Some(ScriptLine::Flags),
        _ => None,
    }
}

#[tactic(auto, unfolding(crate::specs::LineKinds::adverts_line))]
pub fn adverts_line(words: &[&[u8]]) -> Option<ScriptLine>
    ensures { result ≡ adverts_line (map (λ w. w.now) words.now) }
{
    match words {
        [] => Some(ScriptLine::Adverts),
        _ => None,
    }
}

#[tactic(auto, unfolding(crate::specs::LineKinds::inject_line))]
pub fn inject_line(alloc: Global, words: &[&[u8]]) -> Result<ScriptLine, Unread>
    ensures { Reads result (inject_line (map (λ w. w.now) words.now)) }
{
    let [end, addr, digits] = words else {
        return Err(Unread::Word);
    };
    let end = EndName::of(end).ok_or(Unread::Word)?;
    let dst = DottedQuad::of(addr).ok_or(Unread::Word)?;
    let bytes = Listed::of(bytes(alloc, digits)?);
    Ok(ScriptLine::Inject(InjectLine { end, dst, bytes }))
}

#[tactic(auto, unfolding(crate::specs::LineKinds::reroute_line))]
pub fn reroute_line(alloc: Global, words: &[&[u8]]) -> Result<ScriptLine, Unread>
    ensures { Reads result (reroute_line (map (λ w. w.now) words.now)) }
{
    let [group, source, ends @ ..] = words else {
        return Err(Unread::Word);
    };
    let group = DottedQuad::of(group).ok_or(Unread::Word)?;
    let source = DottedQuad::of(source).ok_or(Unread::Word)?;
    let hops = Listed::of(pairs(alloc, ends)?);
    Ok(ScriptLine::Reroute(RerouteLine {
        group,
        source,
        hops,
    }))
}
