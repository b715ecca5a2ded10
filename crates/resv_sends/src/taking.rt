//! What is left of a part toward a previous hop: its unit, and whether it is blockaded there.
ghost use Rattle.std.specs.Prelude.{◌≡◌, ◌==◌, ◌&&◌};
ghost use Rattle.std.specs.Int.{bit_at};
ghost use Rattle.std.specs.List.{filter, list_any};
ghost use Rattle.rsvp_base.specs.Styles.{unit_of};
ghost use Rattle.rsvp_base.specs.Table.{get, keys};
ghost use Rattle.style_rules.specs.Parts.{part_cut};
ghost use Rattle.style_rules.specs.Toward.{is_walled};
ghost use Rattle.resv_state.specs.Merging.{is_by, is_way_walled, names_by, request_of};
ghost use Rattle.router_rules.specs.Asking.{first_of};
ghost use Rattle.resv_sends.specs.Taking.{asks_for, is_open};

use rsvp_base::{Flow, Part, Sender, StyleKind, Unit};
use std::cmp::Ordering;
use style_rules::{Upstream, Wall};

// What is to be known of a request toward a previous hop: its unit, and whether it is blockaded there.
#[derive(Clone, Copy)]
pub(crate) struct Asking {
    pub(crate) unit: Unit,
    pub(crate) blockaded: bool,
}

// What a part asks for toward a hop, cut to the names that come from there, and, where an interface is given, whose trees
// go out of that. `None` exactly where no name is left.
pub(crate) fn asked_toward(
    style: StyleKind,
    part: &Part,
    up: &Upstream,
    iface: Option<u8>,
) -> Option<Asking>
    ensures { result ≡ asks_for style (request_of up.now (part_cut part.now (names_by iface up.now))) }
{
    match first_by(part, up, iface) {
        Some(first) => Some(Asking {
            unit: unit_of(style, first),
            blockaded: is_blockaded(part, up, iface),
        }),
        None => None,
    }
}

// Whether that is of a unit and not blockaded.
pub(crate) fn is_open(unit: Unit, ask: Option<Asking>) -> bool
    ensures { result ≡ is_open unit ask }
{
    match ask {
        Some(ask) => unit.cmp(&ask.unit) == Ordering::Equal && !ask.blockaded,
        None => false,
    }
}

// The first name of a part that is left.
fn first_by(part: &Part, up: &Upstream, iface: Option<u8>) -> Option<Sender>
    ensures { result ≡ first_of (filter (λ x. is_by iface (get up.now x)) (keys part.now.senders)) }
{
    let names = part.senders.as_slice();
    for i in 0..names.len() {
        if is_by(up, names[i], iface) {
            return Some(names[i]);
        }
    }
    None
}

// Whether the blockade of any name that is left keeps the part back.
fn is_blockaded(part: &Part, up: &Upstream, iface: Option<u8>) -> bool
    ensures { result ≡ list_any (λ x. is_by iface (get up.now x) && is_way_walled part.now.flow (get up.now x)) (keys part.now.senders) }
{
    part.senders
        .as_slice()
        .iter()
        .any(|name| is_held(up, *name, iface, &part.flow))
}

// Whether a name is left, and its blockade keeps the flow back.
fn is_held(up: &Upstream, name: Sender, iface: Option<u8>, flow: &Flow) -> bool
    ensures { result ≡ (is_by iface (get up.now name) && is_way_walled flow.now (get up.now name)) }
{
    is_by(up, name, iface) && is_way_walled(flow, name, up)
}

// Whether a name comes from the hop; and where an interface is given, whether its tree goes out of that.
fn is_by(up: &Upstream, name: Sender, iface: Option<u8>) -> bool
    ensures { result ≡ is_by iface (get up.now name) }
{
    match up.get(name) {
        Some(line) => match iface {
            Some(out) => is_out(line.outward, out),
            None => true,
        },
        None => false,
    }
}

// Whether the blockade of a name keeps a flow back.
fn is_way_walled(asked: &Flow, name: Sender, up: &Upstream) -> bool
    ensures { result ≡ is_way_walled asked.now (get up.now name) }
{
    match up.get(name) {
        Some(line) => is_walled(asked, line.wall),
        None => false,
    }
}

// Whether a blockade keeps a flow back.
fn is_walled(asked: &Flow, wall: Option<Wall>) -> bool
    ensures { result ≡ is_walled asked.now wall }
{
    match wall {
        Some(wall) => flow_merge::blockades(&wall.flow, wall.sub, asked),
        None => false,
    }
}

// Whether a set of interfaces has this one.
fn is_out(outward: u16, iface: u8) -> bool
    ensures { result ≡ (bit_at outward iface == 1) }
{
    iface < 16 && (outward >> iface) & 1 == 1
}

// The unit of a name.
fn unit_of(style: StyleKind, name: Sender) -> Unit
    ensures { result ≡ unit_of style name }
{
    match style {
        StyleKind::Fixed => Unit::Of(name),
        StyleKind::Wild | StyleKind::Shared => Unit::One,
    }
}
