//! Parts, written as what a Resv asks for; and what of them is torn down.
ghost use Rattle.std.specs.Prelude.{◌≡◌, ◌≤◌, None, cond};
ghost use Rattle.rsvp_base.specs.declared.style.StyleKind.TheVariants.{Wild, Fixed, Shared};
ghost use Rattle.rsvp_base.specs.Sets.{cut, union, IsWithin};
ghost use Rattle.rsvp_base.specs.Table.{keys, put_in, size};
ghost use Rattle.style_rules.specs.Merge.{put_some};
ghost use Rattle.router_rules.specs.Asking.{ask_of, flow_at, flows_by_sender};
ghost use Rattle.router_rules.specs.Sends.{gone_names, tear_of};
ghost use Rattle.sent_state.specs.Listed.{AreFlowsOf, flows_in, flows_with};

use rsvp_base::{Flow, Sender, Senders, StyleKind, Unit};
use rsvp_messages::{Ask, FixedList, Tear};
use style_rules::Parts;

/// What the parts ask for: a wildcard filter with its SCOPE, or each sender with the flow of its unit, or the shared part
/// (RFC 2205, 3.1.4). `None` exactly where they ask for nothing.
pub fn ask_of(style: StyleKind, parts: &Parts) -> Option<Ask>
    ensures { result ≡ ask_of style parts.now }
{
    // Each style returns by itself, so that what is asked for is made where it is answered.
    match style {
        StyleKind::Wild => return wild_ask(parts),
        StyleKind::Fixed => return fixed_ask(parts),
        StyleKind::Shared => return shared_ask(parts),
    }
}

/// What is torn down of a style: these names (RFC 2205, 3.1.6).
pub fn tear_of(style: StyleKind, names: Senders) -> Tear
    ensures { result ≡ tear_of style names }
{
    match style {
        StyleKind::Wild => Tear::Wild { scope: Some(names) },
        StyleKind::Fixed => Tear::Fixed(names),
        StyleKind::Shared => Tear::Shared(names),
    }
}

// A wildcard filter with its SCOPE.
#[inline(always)]
fn wild_ask(parts: &Parts) -> Option<Ask>
    ensures { result ≡ ask_of Wild parts.now }
{
    let Some(part) = parts.get(Unit::One) else {
        return None;
    };
    Some(Ask::Wild {
        scope: Some(part.senders.copy()),
        flow: part.flow,
    })
}

// The shared part.
#[inline(always)]
fn shared_ask(parts: &Parts) -> Option<Ask>
    ensures { result ≡ ask_of Shared parts.now }
{
    let Some(part) = parts.get(Unit::One) else {
        return None;
    };
    Some(Ask::Shared(part.copy()))
}

// Each sender with the flow of its unit. The list is made here, and grows in place.
#[inline(always)]
fn fixed_ask(parts: &Parts) -> Option<Ask>
    ensures { result ≡ ask_of Fixed parts.now }
{
    let mut list = None;
    put_flows(&mut list, parts);
    let Some(list) = list else {
        return None;
    };
    prove!(1 <= list.len());
    Some(Ask::Fixed(list))
}

// Puts the flows by sender.
fn put_flows(list: &mut Option<FixedList>, parts: &Parts)
    requires { list.old ≡ None }
    ensures { flows_in list.new ≡ flows_by_sender parts.now }
{
    let rows = parts.as_slice();
    for i in 0..rows.len() {
        put_names(list, &rows[i].1.senders, parts);
    }
}

// Puts the names, each with the flow of its unit if it has one.
fn put_names(list: &mut Option<FixedList>, names: &Senders, parts: &Parts)
    requires { AreFlowsOf parts.now (flows_in list.old) }
    ensures { flows_in list.new ≡ flows_with parts.now (flows_in list.old) (keys names.now) }
{
    let names = names.as_slice();
    for i in 0..names.len() {
        put_name(list, &names[i], parts);
    }
}

// Puts a name, if its unit has a flow.
fn put_name(list: &mut Option<FixedList>, name: &Sender, parts: &Parts)
    requires { AreFlowsOf parts.now (flows_in list.old) }
    ensures { flows_in list.new ≡ put_some name.now (flow_at parts.now name.now) (flows_in list.old) }
{
    prove!(parts.len() <= 16);
    match parts.get(Unit::Of(*name)) {
        Some(part) => put_flow(list, *name, part.flow),
        None => {}
    }
}

// Puts a name with its flow.
fn put_flow(list: &mut Option<FixedList>, name: Sender, flow: Flow)
    requires { size (put_in (flows_in list.old) name flow) ≤ 16 }
    ensures { flows_in list.new ≡ put_in (flows_in list.old) name flow }
{
    match list {
        Some(flows) => put_another(flows, name, flow),
        None => *list = Some(FixedList::new(name, flow)),
    }
}

// Puts another name with its flow.
fn put_another(flows: &mut FixedList, name: Sender, flow: Flow)
    requires { size (put_in flows.old name flow) ≤ 16 }
    ensures { flows.new ≡ put_in flows.old name flow }
{
    let Ok(()) = flows.put(name, flow) else {
        unreachable!();
    };
}

/// Of the names of the parts whose units are gone, those that are among others.
pub fn gone_among(before: &Parts, after: &Parts, among: &Senders) -> Senders
    ensures { result ≡ cut (gone_names before.now after.now) among.now }
{
    let mut names = Senders::new();
    let rows = before.as_slice();
    for i in 0..rows.len() {
        let row = &rows[i];
        let gone = after.get(row.0).is_none();
        put_gone(&mut names, &row.1.senders, among, gone);
    }
    names
}

// Puts those of more names that are among others, if they are gone.
fn put_gone(names: &mut Senders, more: &Senders, among: &Senders, gone: bool)
    requires { IsWithin names.old among.now }
    ensures { names.new ≡ cond gone (union names.old (cut more.now among.now)) names.old }
{
    if gone {
        put_among(names, more, among);
    }
}

// Puts those of more names that are among others.
fn put_among(names: &mut Senders, more: &Senders, among: &Senders)
    requires { IsWithin names.old among.now }
    ensures { names.new ≡ union names.old (cut more.now among.now) }
{
    prove!(among.len() <= 16);
    let Ok(all) = names.union(&more.cut(among)) else {
        unreachable!();
    };
    *names = all;
}
