//! The lines of a whole script are checked, and the names of its nodes and who asks for its sessions kept.
ghost use Rattle.std.specs.Prelude.{◌≡◌, ◌≤◌, ◌++◌, [], OnOk, IfErr, vec_capacity};
ghost use Rattle.line_advice.specs.Blamed.{most_advice};
ghost use Rattle.script_grammar.specs.Draft.{nothing};
ghost use Rattle.script_grammar.specs.Grammar.{Follows, HasFault, Leads};
ghost use Rattle.script_grammar.specs.LineKinds.{script_line_of};
ghost use Rattle.script_words.specs.Lines.{text_lines};
ghost use Rattle.script_run.specs.Advised.{IsAdvised};
ghost use Rattle.script_demand.specs.Demanding.{StopsAt};
ghost use Rattle.script_demand.specs.Feeding.{MatchRefused};
ghost use Rattle.network_model.specs.Happenings.{call_of};
ghost use Rattle.script_demand.specs.Begun.{after_call, after_given, after_one, begun_by};
ghost use Rattle.script_demand.specs.Nodes.{node_of_line, node_said};

use crate::telling::end_bad;
use byte_streams::MOST_LINE;
use network_demand::{Begun, begin, quit};
use network_model::{Event, LocalCall};
use rsvp_base::{EndName, NoMemory};
use script_grammar::{Fault, ScriptLine, Stop, read_line};
use script_run::{Checks, Ending};
use script_words::{Unread, next_line};
use std::alloc::Global;

/// Checks the lines of an input one after the other, and keeps the names of the nodes that they declare, and those who ask, in the order
/// in which they began. It ends at the first bad line, or where memory runs out. `advice`, for which there is room, becomes the text that
/// tells what is wrong with the bad line, and stays empty where memory runs out.
pub(crate) fn read_lines<C: Checks>(
    alloc: Global,
    checker: &mut C,
    input: &[u8],
    nodes: &mut Vec<EndName>,
    begun: &mut Vec<Begun>,
    advice: &mut Vec<u8>,
) -> Result<(), Ending>
    requires first { C.lines checker.old ≡ nothing }
    requires unnamed { nodes.old.items ≡ [] }
    requires unasked { begun.old.items ≡ [] }
    requires empty { advice.old.items ≡ [] }
    requires room { most_advice ≤ vec_capacity advice.old }
    ensures quiet { OnOk result (advice.new.items ≡ []) }
    ensures advised { IfErr result (λ e. IsAdvised e input.now advice.new.items) }
    ensures taken { OnOk result (Leads nothing (text_lines input.now) (C.lines checker.new)) }
    ensures nodes { OnOk result (nodes.new.items ≡ (C.lines checker.new).nodes) }
    ensures begun { OnOk result (begun.new.items ≡ begun_by (C.lines checker.new).events) }
    ensures stopped { IfErr result (StopsAt input.now) }
{
    let mut number: u32 = 0;
    let mut rest = input;
    while let Some((line, behind)) = next_line(rest) {
        number = number.saturating_add(1);
        match take_line(alloc, checker, line, nodes, begun) {
            Ok(()) => rest = behind,
            Err(Stop::Bad(why)) => {
                return Err(end_bad(alloc, checker, line, number, why, advice));
            }
            Err(Stop::Crowded) => return Err(Ending::Crowded),
            Err(Stop::NoMemory) => return Err(Ending::NoMemory),
        }
    }
    Ok(())
}

// Takes a line, which is bad where it is too long, and keeps the name of the node that it declares, and who asks behind it.
fn take_line<C: Checks>(
    alloc: Global,
    checker: &mut C,
    line: &[u8],
    nodes: &mut Vec<EndName>,
    begun: &mut Vec<Begun>,
) -> Result<(), Stop>
    ensures follows { OnOk result (Follows (C.lines checker.old) line.now (C.lines checker.new)) }
    ensures refused { IfErr result (MatchRefused (HasFault (C.lines checker.old) line.now)) }
    ensures same { IfErr result (MatchRefused (λ why. C.lines checker.new ≡ C.lines checker.old)) }
    ensures nodes { OnOk result (nodes.new.items ≡ nodes.old.items ++ node_said (script_line_of line.now)) }
    ensures begun { OnOk result (begun.old.items ≡ begun_by (C.lines checker.old).events → begun.new.items ≡ begun_by (C.lines checker.new).events) }
{
    if line.len() > MOST_LINE {
        return Err(Stop::Bad(Fault::Limit));
    }
    match checker.feed(line) {
        Ok(event) => match keep_line(alloc, line, &event, nodes, begun) {
            Ok(()) => Ok(()),
            Err(_) => Err(Stop::NoMemory),
        },
        Err(refused) => Err(refused),
    }
}

// Keeps the name of the node that a line declares, if it declares one, and who asks behind its event, if it has one.
fn keep_line(
    alloc: Global,
    line: &[u8],
    event: &Option<Event>,
    nodes: &mut Vec<EndName>,
    begun: &mut Vec<Begun>,
) -> Result<(), NoMemory>
    ensures nodes { OnOk result (nodes.new.items ≡ nodes.old.items ++ node_said (script_line_of line.now)) }
    ensures begun { OnOk result (begun.new.items ≡ after_given begun.old.items event.now) }
{
    keep_given(event, begun)?;
    keep_node(alloc, line, nodes)
}

// Keeps who asks behind an event, if there is one.
fn keep_given(event: &Option<Event>, begun: &mut Vec<Begun>) -> Result<(), NoMemory>
    ensures { OnOk result (begun.new.items ≡ after_given begun.old.items event.now) }
{
    match event {
        Some(event) => keep_event(event, begun),
        None => Ok(()),
    }
}

// Keeps who asks behind an event.
fn keep_event(event: &Event, begun: &mut Vec<Begun>) -> Result<(), NoMemory>
    ensures { OnOk result (begun.new.items ≡ after_one begun.old.items event.now) }
{
    match event {
        Event::Local { node, call } => keep_call(*node, call, begun),
        _ => Ok(()),
    }
}

// Keeps who asks, where this was asked of a node.
fn keep_call(node: u16, call: &LocalCall, begun: &mut Vec<Begun>) -> Result<(), NoMemory>
    ensures { OnOk result (begun.new.items ≡ after_call begun.old.items node (call_of call.now)) }
{
    match call {
        LocalCall::Want { session, style, .. } => begin(
            begun,
            Begun {
                node,
                session: *session,
                style: *style,
            },
        ),
        LocalCall::Quit { session } => {
            quit(begun, node, *session);
            Ok(())
        }
        _ => Ok(()),
    }
}

// Keeps the name of the node that a line declares, if it declares one.
fn keep_node(alloc: Global, line: &[u8], nodes: &mut Vec<EndName>) -> Result<(), NoMemory>
    ensures { OnOk result (nodes.new.items ≡ nodes.old.items ++ node_said (script_line_of line.now)) }
{
    let mut words = Vec::new(alloc);
    match read_line(alloc, line, &mut words) {
        Ok(said) => keep_said(said, nodes),
        Err(Unread::Word) => Ok(()),
        Err(Unread::NoMemory) => Err(NoMemory),
    }
}

// Keeps the name of the node that a line says, if it says one.
fn keep_said(said: ScriptLine, nodes: &mut Vec<EndName>) -> Result<(), NoMemory>
    ensures { OnOk result (nodes.new.items ≡ nodes.old.items ++ node_of_line said) }
{
    match said {
        ScriptLine::Node(name) => Ok(nodes.push(name)?),
        _other => Ok(()),
    }
}
