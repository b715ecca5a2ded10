//! Lines of who meets nobody.
ghost use Rattle.std.specs.Prelude.{◌≡◌, ◌++◌, OnOk};
ghost use Rattle.std.specs.List.{flat_map};
ghost use Rattle.network_demand.specs.Strays.{why_stray};
ghost use Rattle.network_demand.specs.Asked.{locals_of};
ghost use Rattle.script_demand.specs.Texts.{idle_line, idle_text, idle_words, name_at, sends_words, stray_line, stray_text, strays_text, why_text};

use crate::want_lines::{put_name_at, put_want};
use network_demand::{Asker, Findings, Locals, Why, why_stray};
use rsvp_base::{EndName, NoMemory};
use tree_model::{LocalSender, LocalWant};
use value_texts::{put, put_sender, put_session};

/// Appends the wants that no sender meets, and the senders whose tree goes nowhere.
pub(crate) fn put_strays(
    out: &mut Vec<u8>,
    nodes: &[EndName],
    locals: &Locals,
    found: &Findings,
) -> Result<(), NoMemory>
    ensures { OnOk result (out.new.items ≡ out.old.items ++ strays_text nodes.now (locals_of locals.now) found.now) }
{
    put_stray_wants(out, nodes, locals, found.askers.as_slice())?;
    put_idle(out, nodes, locals.senders.as_slice(), found.idle.as_slice())
}

// Appends the wants that no sender meets.
fn put_stray_wants(
    out: &mut Vec<u8>,
    nodes: &[EndName],
    locals: &Locals,
    askers: &[Asker],
) -> Result<(), NoMemory>
    ensures { OnOk result (out.new.items ≡ out.old.items ++ flat_map (stray_text nodes.now (locals_of locals.now)) askers.now) }
{
    for asker in askers {
        put_if_stray(out, nodes, locals, asker)?;
    }
    Ok(())
}

// Appends a want, if no sender meets it.
fn put_if_stray(
    out: &mut Vec<u8>,
    nodes: &[EndName],
    locals: &Locals,
    asker: &Asker,
) -> Result<(), NoMemory>
    ensures { OnOk result (out.new.items ≡ out.old.items ++ stray_text nodes.now (locals_of locals.now) asker.now) }
{
    if asker.ends.is_empty() {
        return put_stray(out, nodes, &asker.want, why_stray(locals, &asker.want));
    }
    Ok(())
}

#[tactic(auto, unfolding(crate::specs::Texts::stray_line))]
fn put_stray(
    out: &mut Vec<u8>,
    nodes: &[EndName],
    want: &LocalWant,
    why: Why,
) -> Result<(), NoMemory>
    ensures { OnOk result (out.new.items ≡ out.old.items ++ stray_line nodes.now want.now why) }
{
    put(out, b"stray: ")?;
    put_want(out, nodes, want)?;
    put_why(out, nodes, want.node as usize, why)
}

// Appends why no sender meets a want of the node of this number.
fn put_why(out: &mut Vec<u8>, nodes: &[EndName], node: usize, why: Why) -> Result<(), NoMemory>
    ensures { OnOk result (out.new.items ≡ out.old.items ++ why_text why (name_at nodes.now node)) }
{
    match why {
        Why::NobodySends => put(out, b": nobody sends in this session\n"),
        Why::NoSuchSender => put(out, b": none of its senders sends in this session\n"),
        Why::NoTree => {
            put(out, b": no tree of its senders comes into ")?;
            put_name_at(out, nodes, node)?;
            put(out, b"\n")
        }
    }
}

// Appends the senders at these places.
fn put_idle(
    out: &mut Vec<u8>,
    nodes: &[EndName],
    senders: &[LocalSender],
    idle: &[usize],
) -> Result<(), NoMemory>
    ensures { OnOk result (out.new.items ≡ out.old.items ++ flat_map (idle_text nodes.now senders.now) idle.now) }
{
    for place in idle {
        put_idle_at(out, nodes, senders, *place)?;
    }
    Ok(())
}

// Appends the sender at this place.
fn put_idle_at(
    out: &mut Vec<u8>,
    nodes: &[EndName],
    senders: &[LocalSender],
    place: usize,
) -> Result<(), NoMemory>
    ensures { OnOk result (out.new.items ≡ out.old.items ++ idle_text nodes.now senders.now place) }
{
    match senders.get(place) {
        Some(sender) => put_idle_sender(out, nodes, sender),
        None => Ok(()),
    }
}

fn put_idle_sender(
    out: &mut Vec<u8>,
    nodes: &[EndName],
    sender: &LocalSender,
) -> Result<(), NoMemory>
    ensures { OnOk result (out.new.items ≡ out.old.items ++ idle_line (name_at nodes.now sender.now.node) sender.now) }
{
    put_sends(out, nodes, sender)?;
    put_idle_words(out, nodes, sender)
}

#[tactic(auto, unfolding(crate::specs::Texts::sends_words))]
fn put_sends(out: &mut Vec<u8>, nodes: &[EndName], sender: &LocalSender) -> Result<(), NoMemory>
    ensures { OnOk result (out.new.items ≡ out.old.items ++ sends_words (name_at nodes.now sender.now.node) sender.now) }
{
    put(out, b"stray: ")?;
    put_name_at(out, nodes, sender.node as usize)?;
    put(out, b" sends as ")?;
    put_sender(out, sender.sender)
}

#[tactic(auto, unfolding(crate::specs::Texts::idle_words))]
fn put_idle_words(
    out: &mut Vec<u8>,
    nodes: &[EndName],
    sender: &LocalSender,
) -> Result<(), NoMemory>
    ensures { OnOk result (out.new.items ≡ out.old.items ++ idle_words (name_at nodes.now sender.now.node) sender.now) }
{
    put(out, b" in ")?;
    put_session(out, sender.session)?;
    put(out, b": its tree has no hop out of ")?;
    put_name_at(out, nodes, sender.node as usize)?;
    put(out, b"\n")
}
