//! What is wanted over the hops of a session's group.
ghost use Rattle.std.specs.Prelude.{◌≡◌, ◌++◌, ◌+◌, ◌<◌, ◌≤◌, ◌∷◌, [], List, length, map, slice_set, IfOk, OnOk};
ghost use Rattle.std.specs.List.{All, filter};
ghost use Rattle.rsvp_base.specs.Sets.{with_keys};
ghost use Rattle.rsvp_base.specs.Table.{size, values};
ghost use Rattle.rsvp_base.specs.Styles.{name_of};
ghost use Rattle.style_rules.specs.Merge.{merge};
ghost use Rattle.tree_model.specs.Networks.{node_of};
ghost use Rattle.rsvp_base.specs.declared.session.Sender.{Sender};
ghost use Rattle.tree_routing.specs.Order.{AreByRank};
ghost use Rattle.tree_model.specs.Wants.{live};
ghost use Rattle.network_demand.specs.Steps.{cuts, at_node, goes_over, names_among, hop_wants};
ghost use Rattle.network_demand.specs.Asked.{locals_of};

use crate::asked::{Asked, ask_all, local_wants};
use crate::hop_want::HopWant;
use crate::locals::{Locals, live, names_of};
use rsvp_base::{Addr, NoMemory, Part, Sender, Senders, Session};
use std::alloc::Global;
use style_rules::{Merger, Parts, Style, cut};
use tree_model::LinkHop;
use tree_routing::{GroupHop, Routing};

// Whether the tree of the sender's address has the hop.
fn goes_over(routing: &Routing, group: Addr, hop: LinkHop, sender: Sender) -> bool
    ensures { result ≡ goes_over routing.now group (hop ∷ []) sender }
{
    routing.has_hop(group, sender.addr, hop)
}

// The sender's name too, if its tree has the hop.
fn add_over<S: Style>(
    names: &mut Senders,
    routing: &Routing,
    group: Addr,
    hop: LinkHop,
    sender: Sender,
)
    requires { size names.old < 16 }
    ensures names { (rest : List Sender)
        → with_keys names.new (map (name_of S.kind_is) (filter (goes_over routing.now group (hop ∷ [])) rest))
        ≡ with_keys names.old (map (name_of S.kind_is) (filter (goes_over routing.now group (hop ∷ [])) (sender ∷ rest))) }
    ensures few { size names.new ≤ size names.old + 1 }
{
    if !goes_over(routing, group, hop, sender) {
        return;
    }
    // There is room, as there are fewer than 16.
    let _ = names.insert(S::name_of(sender));
}

// The names, as the style lists them, of those of these senders whose trees have the hop.
fn names_over<S: Style>(routing: &Routing, senders: &[Sender], group: Addr, hop: LinkHop) -> Senders
    requires { length senders.now ≤ 16 }
    ensures names { result ≡ names_among S.kind_is routing.now group (hop ∷ []) senders.now }
    ensures few { size result ≤ 16 }
{
    let mut names = Senders::new();
    for sender in senders {
        add_over::<S>(&mut names, routing, group, hop, *sender);
    }
    names
}

// Parts cut to some names and merged.
fn merged<S: Style>(parts: &[Part], names: &Senders) -> Parts
    requires { size names.now ≤ 16 }
    ensures { result ≡ merge S.kind_is (cuts names.now parts.now) }
{
    let mut merger = Merger::<S>::new();
    for part in parts {
        if let Some(part) = cut(part, names) {
            merger.add(&part, false);
        }
    }
    merger.finish()
}

// The want of a hop from what is asked at the node that it goes into; it is asked in turn at the node that it goes out of.
fn next_want<S: Style>(
    routing: &Routing,
    asked: &mut Vec<Asked>,
    senders: &[Sender],
    group: Addr,
    hop: LinkHop,
) -> Result<Parts, NoMemory>
    requires few { length senders.now ≤ 16 }
    requires from { node_of routing.now.ends hop.from < length asked.old.items }
    requires to { node_of routing.now.ends hop.to < length asked.old.items }
    ensures parts { IfOk result (λ parts. parts ≡ merge S.kind_is (cuts (names_among S.kind_is routing.now group (hop ∷ []) senders.now) (at_node asked.old.items (node_of routing.now.ends hop.to)))) }
    ensures asked { IfOk result (λ parts. asked.new.items
        ≡ slice_set asked.old.items (node_of routing.now.ends hop.from) (at_node asked.old.items (node_of routing.now.ends hop.from)
        ++ values parts)) }
{
    let names = names_over::<S>(routing, senders, group, hop);
    let into = routing.node_of(hop.to) as usize;
    let parts = merged::<S>(asked[into].as_slice(), &names);
    ask_all(asked, routing.node_of(hop.from), &parts)?;
    Ok(parts)
}

/// The wants of a session and style over each hop of its group, in this order of all hops by rank. `NoMemory`: there was no
/// room for them.
pub fn hop_wants<S: Style>(
    alloc: Global,
    routing: &Routing,
    order: &[GroupHop],
    locals: &Locals,
    session: Session,
) -> Result<Vec<HopWant>, NoMemory>
    requires order { AreByRank routing.now order.now }
    requires nodes { All (λ w. w.node < routing.now.nodes) locals.now.wants.items }
    requires few { length (live (locals_of locals.now) session) ≤ 16 }
    ensures { IfOk result (λ all. all.items ≡ hop_wants S.kind_is routing.now (locals_of locals.now) session order.now) }
{
    let senders = live(alloc, locals.senders.as_slice(), session)?;
    let names = names_of::<S>(senders.as_slice());
    let mut asked = local_wants::<S>(
        alloc,
        routing.nodes(),
        locals.wants.as_slice(),
        session,
        &names,
    )?;
    let mut all = Vec::new(alloc);
    for one in order {
        if one.group.0 != session.group.0 {
            continue;
        }
        let parts = next_want::<S>(
            routing,
            &mut asked,
            senders.as_slice(),
            session.group,
            one.hop,
        )?;
        all.push(HopWant {
            hop: one.hop,
            parts,
        })?;
    }
    Ok(all)
}
