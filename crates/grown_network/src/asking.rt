//! What the hosts of a grown network ask of it.
ghost use Rattle.std.specs.Prelude.{◌≡◌, ◌++◌, ◌∷◌, [], map, IfOk, OnOk};
ghost use Rattle.std.specs.List.{flat_map};
ghost use Rattle.rsvp_base.specs.Table.{keys};
ghost use Rattle.rsvp_messages.specs.Units.{only};
ghost use Rattle.network_demand.specs.Asked.{locals_of};
ghost use Rattle.grown_network.specs.Grown.{local_wants};
ghost use Rattle.grown_network.specs.Asking.{want_of};

use crate::hosts::{Wanted, session_of};
use network_demand::Locals;
use rsvp_base::{NoMemory, Part, Sender, Senders, StyleKind};
use std::alloc::Global;
use tree_model::{LocalSender, LocalWant};

/// What these senders and wants ask of their network. `NoMemory`: there was no room for it.
pub fn asked(alloc: Global, senders: &[LocalSender], wants: &[Wanted]) -> Result<Locals, NoMemory>
    ensures { IfOk result (λ l. locals_of l ≡ record { senders = senders.now; wants = flat_map local_wants wants.now }) }
{
    let mut all = Vec::new(alloc);
    for wanted in wants {
        add_wants(&mut all, wanted)?;
    }
    Ok(Locals {
        senders: senders.to_vec(alloc).map_err(|_| NoMemory)?,
        wants: all,
    })
}

// Adds what the call for a want makes wanted at its node: in fixed style one for each sender.
fn add_wants(all: &mut Vec<LocalWant>, wanted: &Wanted) -> Result<(), NoMemory>
    ensures { OnOk result (all.new.items ≡ all.old.items ++ local_wants wanted.now) }
{
    match wanted.style {
        StyleKind::Wild => add_want(all, wanted, Senders::new()),
        StyleKind::Fixed => add_each(all, wanted),
        StyleKind::Shared => add_want(all, wanted, wanted.senders.copy()),
    }
}

// Adds a want of each of its senders.
fn add_each(all: &mut Vec<LocalWant>, wanted: &Wanted) -> Result<(), NoMemory>
    ensures { OnOk result (all.new.items ≡ all.old.items ++ map (λ x. want_of wanted.now (only x)) (keys wanted.now.senders)) }
{
    for sender in wanted.senders.as_slice() {
        add_want(all, wanted, only(*sender))?;
    }
    Ok(())
}

// Adds a want of these senders together.
fn add_want(all: &mut Vec<LocalWant>, wanted: &Wanted, senders: Senders) -> Result<(), NoMemory>
    ensures { OnOk result (all.new.items ≡ all.old.items ++ want_of wanted.now senders ∷ []) }
{
    let want = LocalWant {
        node: wanted.node,
        session: session_of(wanted.style),
        style: wanted.style,
        part: Part {
            senders,
            flow: wanted.flow,
        },
    };
    if all.push(want).is_err() {
        return Err(NoMemory);
    }
    Ok(())
}

// The list of one sender.
fn only(sender: Sender) -> Senders
    ensures { result ≡ only sender }
{
    let mut names = Senders::new();
    let Ok(()) = names.insert(sender) else {
        unreachable!();
    };
    names
}
