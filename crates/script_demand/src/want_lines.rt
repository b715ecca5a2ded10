//! Lines of who asks.
ghost use Rattle.std.specs.Prelude.{◌≡◌, ◌++◌, OnOk};
ghost use Rattle.script_demand.specs.Texts.{asks_words, kind_words, name_at, want_line, want_words, who_text};

use rsvp_base::{EndName, NoMemory, StyleKind};
use tree_model::LocalWant;
use value_texts::{put, put_flow, put_names, put_session, put_style};

/// Appends what a node wants, as `t wants 239.1.1.1/17/5004 SE 10.0.1.1:9 700/700/inf/1/1500`.
pub(crate) fn put_want(
    out: &mut Vec<u8>,
    nodes: &[EndName],
    want: &LocalWant,
) -> Result<(), NoMemory>
    ensures { OnOk result (out.new.items ≡ out.old.items ++ want_words nodes.now want.now) }
{
    put_asks(out, nodes, want)?;
    put_kind(out, want)
}

// Appends who wants something of which session.
#[tactic(auto, unfolding(crate::specs::Texts::asks_words))]
fn put_asks(out: &mut Vec<u8>, nodes: &[EndName], want: &LocalWant) -> Result<(), NoMemory>
    ensures { OnOk result (out.new.items ≡ out.old.items ++ asks_words nodes.now want.now) }
{
    put_name_at(out, nodes, want.node as usize)?;
    put(out, b" wants ")?;
    put_session(out, want.session)?;
    put(out, b" ")
}

// Appends in which style it is wanted, of whom and how much.
#[tactic(auto, unfolding(crate::specs::Texts::kind_words))]
fn put_kind(out: &mut Vec<u8>, want: &LocalWant) -> Result<(), NoMemory>
    ensures { OnOk result (out.new.items ≡ out.old.items ++ kind_words want.now) }
{
    put_style(out, want.style)?;
    put(out, b" ")?;
    put_who(out, want)?;
    put(out, b" ")?;
    put_flow(out, want.part.flow)
}

/// Appends what a node wants in a line of its own, two spaces in.
#[tactic(auto, unfolding(crate::specs::Texts::want_line))]
pub(crate) fn put_want_line(
    out: &mut Vec<u8>,
    nodes: &[EndName],
    want: &LocalWant,
) -> Result<(), NoMemory>
    ensures { OnOk result (out.new.items ≡ out.old.items ++ want_line nodes.now want.now) }
{
    put(out, b"  ")?;
    put_want(out, nodes, want)?;
    put(out, b"\n")
}

/// Appends a name by its number; nothing where there is none.
pub(crate) fn put_name_at(
    out: &mut Vec<u8>,
    names: &[EndName],
    number: usize,
) -> Result<(), NoMemory>
    ensures { OnOk result (out.new.items ≡ out.old.items ++ name_at names.now number) }
{
    match names.get(number) {
        Some(name) => put(out, name.bytes()),
        None => Ok(()),
    }
}

// Appends the senders that a want is for; a wildcard one is for `*`.
fn put_who(out: &mut Vec<u8>, want: &LocalWant) -> Result<(), NoMemory>
    ensures { OnOk result (out.new.items ≡ out.old.items ++ who_text want.now.style want.now.part.senders) }
{
    match want.style {
        StyleKind::Wild => put(out, b"*"),
        StyleKind::Fixed => put_names(out, StyleKind::Fixed, want.part.senders.as_slice()),
        StyleKind::Shared => put_names(out, StyleKind::Shared, want.part.senders.as_slice()),
    }
}
