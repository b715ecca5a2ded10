//! What is asked at the nodes of a network.
ghost use Rattle.std.specs.Prelude.{◌≡◌, ◌++◌, ◌<◌, ◌∷◌, [], ℕ, List, length, replicate, slice_set, IfOk, OnOk, OnErr};
ghost use Rattle.std.specs.List.{All};
ghost use Rattle.rsvp_base.specs.Table.{values};
ghost use Rattle.tree_model.specs.declared.locals.LocalWant.{LocalWant};
ghost use Rattle.network_demand.specs.Steps.{widened, local_parts, at_node};

use crate::locals::{is_session, is_style};
use rsvp_base::{NoMemory, Part, Senders, Session, StyleKind};
use std::alloc::Global;
use std::marker::Model;
use style_rules::{Parts, Style};
use tree_model::LocalWant;

/// The parts that are asked at a node. Contracts see their list.
#[derive(Drop)]
pub(crate) struct Asked {
    parts: Vec<Part>,
}

impl Model for Asked {
    ghost use Rattle.std.specs.Prelude.{List};
    ghost use Rattle.std.specs.Coded.{coded_list};
    ghost use Rattle.rsvp_base.specs.Codes.{part_code};
    ghost use Rattle.rsvp_base.specs.declared.part.Part.{Part};

    ghost Value = { List Part };

    ghost coded = { coded_list part_code };

    ghost view = { λ a. a.parts.items };
}

impl Asked {
    /// Nothing.
    pub(crate) fn new(alloc: Global) -> Asked
        ensures { result ≡ [] }
    {
        Asked {
            parts: Vec::new(alloc),
        }
    }

    /// The parts.
    pub(crate) fn as_slice(&self) -> &[Part]
        ensures { result.now ≡ self.now }
    {
        self.parts.as_slice()
    }

    /// One part more. `NoMemory`: there was no room for it; nothing changes then.
    pub(crate) fn push(&mut self, part: Part) -> Result<(), NoMemory>
        ensures ok { OnOk result (self.new ≡ self.old ++ part ∷ []) }
        ensures err { OnErr result (self.new ≡ self.old) }
    {
        Ok(self.parts.push(part)?)
    }

    /// The parts of a want more.
    pub(crate) fn push_all(&mut self, parts: &Parts) -> Result<(), NoMemory>
        ensures { OnOk result (self.new ≡ self.old ++ values parts.now) }
    {
        for (_, part) in parts.as_slice() {
            self.push(part.copy())?;
        }
        Ok(())
    }
}

/// Nothing is asked at so many nodes.
pub(crate) fn nothing_asked(alloc: Global, nodes: u16) -> Result<Vec<Asked>, NoMemory>
    ensures { IfOk result (λ all. all.items ≡ replicate nodes []) }
{
    let mut all = Vec::new(alloc);
    for _node in 0..nodes {
        all.push(Asked::new(alloc))?;
    }
    Ok(all)
}

// One part more at a node.
fn ask(asked: &mut Vec<Asked>, node: u16, part: Part) -> Result<(), NoMemory>
    requires { node < length asked.old.items }
    ensures { OnOk result (asked.new.items ≡ slice_set asked.old.items node (at_node asked.old.items node ++ part ∷ [])) }
{
    let there = &mut asked[node as usize];
    there.push(part)
}

/// The parts of a want more at a node.
pub(crate) fn ask_all(asked: &mut Vec<Asked>, node: u16, parts: &Parts) -> Result<(), NoMemory>
    requires { node < length asked.old.items }
    ensures { OnOk result (asked.new.items ≡ slice_set asked.old.items node (at_node asked.old.items node ++ values parts.now)) }
{
    let there = &mut asked[node as usize];
    there.push_all(parts)
}

// A local want's part, with the names that it is for.
fn widened<S: Style>(part: &Part, all: &Senders) -> Part
    ensures { result ≡ widened S.kind_is all.now part.now }
{
    match S::kind() {
        StyleKind::Wild => Part {
            senders: all.copy(),
            flow: part.flow,
        },
        StyleKind::Fixed => part.copy(),
        StyleKind::Shared => part.copy(),
    }
}

// One local want more, if it is of the session and style.
fn ask_for<S: Style>(
    asked: &mut Vec<Asked>,
    want: &LocalWant,
    session: Session,
    all: &Senders,
) -> Result<(), NoMemory>
    requires { want.now.node < length asked.old.items }
    ensures size { OnOk result (length asked.new.items ≡ length asked.old.items) }
    ensures asked { OnOk result ((n : ℕ) (rest : List LocalWant)
        → at_node asked.new.items n ++ local_parts S.kind_is session all.now n rest ≡ at_node asked.old.items n
        ++ local_parts S.kind_is session all.now n (want.now ∷ rest)) }
{
    if is_session(session, want.session) && is_style(S::kind(), want.style) {
        return ask(asked, want.node, widened::<S>(&want.part, all));
    }
    Ok(())
}

/// What is asked at each node by the local wants of a session and style, a wildcard one with all these names.
pub(crate) fn local_wants<S: Style>(
    alloc: Global,
    nodes: u16,
    wants: &[LocalWant],
    session: Session,
    all: &Senders,
) -> Result<Vec<Asked>, NoMemory>
    requires { All (λ w. w.node < nodes) wants.now }
    ensures size { IfOk result (λ asked. length asked.items ≡ nodes) }
    ensures asked { IfOk result (λ asked. (n : ℕ) → at_node asked.items n ≡ local_parts S.kind_is session all.now n wants.now) }
{
    let mut asked = nothing_asked(alloc, nodes)?;
    for want in wants {
        ask_for::<S>(&mut asked, want, session, all)?;
    }
    Ok(asked)
}
