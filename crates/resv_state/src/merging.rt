//! The merge of what a session's reservations ask for: on an interface, and toward a previous hop.
ghost use Rattle.std.specs.Prelude.{◌≡◌, ◌≤◌, ◌==◌, ◌++◌, List};
ghost use Rattle.std.specs.Int.{bit_at};
ghost use Rattle.std.specs.List.{filter_map};
ghost use Rattle.rsvp_base.specs.Sets.{union};
ghost use Rattle.rsvp_base.specs.Table.{get, has, kept, size};
ghost use Rattle.style_rules.specs.Parts.{part_cut};
ghost use Rattle.style_rules.specs.Tally.{tally_of, names_of_tally};
ghost use Rattle.style_rules.specs.Toward.{Request, is_walled};
ghost use Rattle.resv_state.specs.Walks.{held_under};
ghost use Rattle.resv_state.specs.Merging.{names_by, names_via, is_by, is_way_walled, is_blockaded, request_of, one_of, open_on, held_names, held_on, held_toward, want_request};

use crate::fact::{Held, ResvFact};
use crate::leaving::{keep_if, part_of};
use rsvp_base::{Flow, Part, Sender, Senders, Session};
use soft_table::SoftTable;
use style_rules::{Merger, Parts, Style, Upstream, Wall};

// ---- blockades

// Whether a blockade keeps a flow back.
fn is_walled(asked: &Flow, wall: Option<Wall>) -> bool
    ensures { result ≡ is_walled asked.now wall }
{
    match wall {
        Some(wall) => flow_merge::blockades(&wall.flow, wall.sub, asked),
        None => false,
    }
}

// Whether the blockade of a name does.
fn is_way_walled(asked: &Flow, name: Sender, up: &Upstream) -> bool
    ensures { result ≡ is_way_walled asked.now (get up.now name) }
{
    match up.get(name) {
        Some(line) => is_walled(asked, line.wall),
        None => false,
    }
}

// Whether the blockade of any of its names keeps a part back.
fn is_blockaded(part: &Part, up: &Upstream) -> bool
    ensures { result ≡ is_blockaded up.now part.now }
{
    part.senders
        .as_slice()
        .iter()
        .any(|name| is_way_walled(&part.flow, *name, up))
}

// ---- cuts

// Whether a set of interfaces has this one.
fn is_out(outward: u16, iface: u8) -> bool
    ensures { result ≡ (bit_at outward iface == 1) }
{
    iface < 16 && (outward >> iface) & 1 == 1
}

// Whether a name comes from the hop; and where an interface is given, whether its tree goes out of that.
fn is_by(up: &Upstream, name: Sender, iface: Option<u8>) -> bool
    ensures { result ≡ is_by iface (get up.now name) }
{
    match up.get(name) {
        Some(line) => match iface {
            Some(out) => is_out(line.outward, out),
            None => true,
        },
        None => false,
    }
}

// The names that come from the hop (and whose trees go out of the interface).
fn names_by(names: &Senders, up: &Upstream, iface: Option<u8>) -> Senders
    ensures { result ≡ kept (has (names_by iface up.now)) names.now }
{
    let mut left = names.copy();
    for name in names.as_slice() {
        let stays = is_by(up, *name, iface);
        keep_if(&mut left, *name, stays);
    }
    left
}

// The part with them, if there is one.
fn cut_by(part: &Part, up: &Upstream, iface: Option<u8>) -> Option<Part>
    ensures { result ≡ part_cut part.now (names_by iface up.now) }
{
    part_of(names_by(&part.senders, up, iface), part.flow)
}

// One request more: the part with them, if there is one.
fn add_cut<S: Style>(merger: &mut Merger<S>, part: &Part, up: &Upstream, iface: Option<u8>)
    requires { size (union (names_of_tally merger.old) (names_via up.now)) ≤ 16 }
    ensures { (rs : List Request) → merger.old ≡ tally_of S.kind_is rs → merger.new ≡ tally_of S.kind_is (rs ++ one_of (request_of up.now (part_cut part.now (names_by iface up.now)))) }
{
    if let Some(left) = cut_by(part, up, iface) {
        let walled = is_blockaded(&left, up);
        merger.add(&left, walled);
    }
}

// ---- walks

// One request more: the reservation's part, if it is on the interface.
fn add_on<S: Style>(merger: &mut Merger<S>, fact: &ResvFact, iface: u8)
    requires { size (union (names_of_tally merger.old) fact.now.part.senders) ≤ 16 }
    ensures { (rs : List Request) → merger.old ≡ tally_of S.kind_is rs → merger.new ≡ tally_of S.kind_is (rs ++ one_of (open_on iface fact.now.iface fact.now.part)) }
{
    if fact.iface == iface {
        merger.add(&fact.part, false);
    }
}

// The requests of a session's reservations on an interface, none blockaded.
pub(crate) fn merge_on<S: Style>(table: &SoftTable<Held>, session: Session, iface: u8) -> Merger<S>
    requires { size (held_names (held_under session table.now.facts)) ≤ 16 }
    ensures { result ≡ tally_of S.kind_is (filter_map (held_on iface) (held_under session table.now.facts)) }
{
    let mut merger = Merger::new();
    for held in table.of_session(session) {
        add_on(&mut merger, &held.fact, iface);
    }
    merger
}

// The requests of a session's reservations toward a previous hop.
fn merge_resvs<S: Style>(table: &SoftTable<Held>, session: Session, up: &Upstream) -> Merger<S>
    requires { size up.now ≤ 16 }
    ensures { result ≡ tally_of S.kind_is (filter_map (held_toward up.now) (held_under session table.now.facts)) }
{
    let mut merger = Merger::new();
    for held in table.of_session(session) {
        add_cut(&mut merger, &held.fact.part, up, Some(held.fact.iface));
    }
    merger
}

// With those of the local wants.
pub(crate) fn merge_toward<S: Style>(
    table: &SoftTable<Held>,
    session: Session,
    up: &Upstream,
    own: &Parts,
) -> Merger<S>
    requires { size up.now ≤ 16 }
    ensures { result ≡ tally_of S.kind_is (filter_map (held_toward up.now) (held_under session table.now.facts) ++ filter_map (want_request up.now) own.now.rows) }
{
    let mut merger = merge_resvs(table, session, up);
    for row in own.as_slice() {
        add_cut(&mut merger, &row.1, up, None);
    }
    merger
}
