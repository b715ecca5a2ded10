//! Lines of what starves since another style came late.
ghost use Rattle.std.specs.Prelude.{◌≡◌, ◌++◌, [], OnOk, if◌then◌else◌};
ghost use Rattle.std.specs.List.{flat_map};
ghost use Rattle.std.specs.Ordering.{eq_by_cmp};
ghost use Rattle.rsvp_base.specs.Orders.{sessions};
ghost use Rattle.script_demand.specs.Texts.{end_starves, late_head, late_words, name_at, starved_in, starved_text};

use crate::want_lines::{put_name_at, put_want_line};
use network_demand::{Begun, Starved};
use rsvp_base::{EndName, NoMemory, Session};
use value_texts::{put, put_session, put_style};

/// Appends what starves of a session.
pub(crate) fn put_starved(
    out: &mut Vec<u8>,
    nodes: &[EndName],
    names: &[EndName],
    starved: &[Starved],
    session: Session,
) -> Result<(), NoMemory>
    ensures { OnOk result (out.new.items ≡ out.old.items ++ flat_map (starved_in nodes.now names.now session) starved.now) }
{
    for one in starved {
        put_if(
            out,
            nodes,
            names,
            one,
            is_session(session, one.late.session),
        )?;
    }
    Ok(())
}

// Appends a want that starves, if this holds of it.
fn put_if(
    out: &mut Vec<u8>,
    nodes: &[EndName],
    names: &[EndName],
    one: &Starved,
    holds: bool,
) -> Result<(), NoMemory>
    ensures { OnOk result (out.new.items ≡ out.old.items ++ (if holds then starved_text nodes.now names.now one.now else [])) }
{
    if holds {
        return put_one(out, nodes, names, one);
    }
    Ok(())
}

// Appends a want that starves, and why.
fn put_one(
    out: &mut Vec<u8>,
    nodes: &[EndName],
    names: &[EndName],
    one: &Starved,
) -> Result<(), NoMemory>
    ensures { OnOk result (out.new.items ≡ out.old.items ++ starved_text nodes.now names.now one.now) }
{
    put_head(out, nodes, names, one)?;
    put_want_line(out, nodes, &one.want)
}

// Appends who came late, and at which end what stood starves.
fn put_head(
    out: &mut Vec<u8>,
    nodes: &[EndName],
    names: &[EndName],
    one: &Starved,
) -> Result<(), NoMemory>
    ensures { OnOk result (out.new.items ≡ out.old.items ++ late_head nodes.now names.now one.now) }
{
    put_late(out, nodes, &one.late)?;
    put_end(out, names, one.end)
}

#[tactic(auto, unfolding(crate::specs::Texts::late_words))]
fn put_late(out: &mut Vec<u8>, nodes: &[EndName], late: &Begun) -> Result<(), NoMemory>
    ensures { OnOk result (out.new.items ≡ out.old.items ++ late_words (name_at nodes.now late.now.node) late.now.session late.now.style) }
{
    put(out, b"late: ")?;
    put_name_at(out, nodes, late.node as usize)?;
    put(out, b" wants ")?;
    put_session(out, late.session)?;
    put(out, b" in ")?;
    put_style(out, late.style)
}

#[tactic(auto, unfolding(crate::specs::Texts::end_starves))]
fn put_end(out: &mut Vec<u8>, names: &[EndName], end: usize) -> Result<(), NoMemory>
    ensures { OnOk result (out.new.items ≡ out.old.items ++ end_starves (name_at names.now end)) }
{
    put(out, b", and starves what stood at end ")?;
    put_name_at(out, names, end)?;
    put(out, b"\n")
}

fn is_session(session: Session, other: Session) -> bool
    ensures { result ≡ eq_by_cmp sessions.cmp session other }
{
    session == other
}
