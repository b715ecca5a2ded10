//! Reports of ends.
ghost use Rattle.std.specs.Prelude.{◌≡◌, ◌++◌, ◌∷◌, [], ℕ, OnOk, length, slice_get, Some};
ghost use Rattle.std.specs.List.{flat_map};
ghost use Rattle.network_flight.specs.Runs.{end_report, whole_report};
ghost use Rattle.network_flight.specs.Texts.{flag_text, police_text};
ghost use Rattle.network_flight.specs.Worlds.{World as AWorld};
ghost use Rattle.network_replay.specs.Agreeing.{AreNodes};
ghost use Rattle.network_replay.specs.Reporting.{Says, entry_said, report_kind};
ghost use Rattle.router_rules.specs.Flags.{entries_of};
ghost use Rattle.value_texts.specs.Reports.{head_text};
ghost use Rattle.tree_model.specs.declared.hops.End.{End as AnEnd};

use crate::router::Router;
use crate::telling::put_whole;
use network_flight::Wires;
use router_rules::{Entry, Police};
use rsvp_base::{EndName, NoMemory};
use value_texts::{put_entry, put_head, put_line};

// An interface has at most so many entries.
const ENTRIES: usize = 3072;

/// Appends the report of each end. `NoMemory`: a prefix of it is appended. Each line is made in `line`.
pub(crate) fn put_all<R: Router>(
    line: &mut Vec<u8>,
    names: &[EndName],
    wires: &Wires,
    nodes: &[R],
    flags: bool,
    out: &mut Vec<u8>,
) -> Result<(), NoMemory>
    ensures { (q : ℕ) (w : AWorld) → w.net ≡ wires.now → AreNodes R.seen q w nodes.now → Says result out.old.items out.new.items (whole_report q names.now (report_kind flags) w) }
{
    let ends = count_of(wires);
    for end in 0..ends {
        put_end(line, names, wires, nodes, end, flags, out)?;
    }
    Ok(())
}

/// Appends the report of an end; nothing where it has no name, or is not there, or its node is not. `NoMemory`: a prefix of it
/// is appended.
pub(crate) fn put_end<R: Router>(
    line: &mut Vec<u8>,
    names: &[EndName],
    wires: &Wires,
    nodes: &[R],
    end: u16,
    flags: bool,
    out: &mut Vec<u8>,
) -> Result<(), NoMemory>
    ensures { (q : ℕ) (w : AWorld) → w.net ≡ wires.now → AreNodes R.seen q w nodes.now → Says result out.old.items out.new.items (end_report q names.now (report_kind flags) w end) }
{
    let Some(name) = names.get(end as usize) else {
        return Ok(());
    };
    let Some((number, iface)) = wires.place_of(end) else {
        return Ok(());
    };
    let Some(node) = nodes.get(number as usize) else {
        return Ok(());
    };
    let capacity = capacity_of(wires, end);
    put_node(line, name.bytes(), capacity, node, iface, flags, out)
}

/// How many ends there are.
pub(crate) fn count_of(wires: &Wires) -> u16
    ensures { result ≡ length wires.now.ends }
{
    wires.routing().ends().len() as u16
}

// The capacity of an end.
fn capacity_of(wires: &Wires, end: u16) -> u64
    ensures { (e : AnEnd) → slice_get wires.now.ends end ≡ Some e → result ≡ e.iface.capacity }
{
    match wires.routing().ends().get(end as usize) {
        Some(end) => end.iface.capacity,
        None => 0,
    }
}

// Appends the line of an interface of a node, and those of its entries. `NoMemory`: a prefix of them is appended.
fn put_node<R: Router>(
    line: &mut Vec<u8>,
    name: &[u8],
    capacity: u64,
    node: &R,
    iface: u8,
    flags: bool,
    out: &mut Vec<u8>,
) -> Result<(), NoMemory>
    ensures { (c : ℕ) (e : AnEnd) → capacity ≡ e.iface.capacity → Says result out.old.items out.new.items (report_kind flags (R.seen.place node.now) name.now e iface (R.seen.facts node.now c)) }
{
    let held = node.held(iface);
    match say_head(line, name, held, capacity, out) {
        Ok(()) => put_entries(line, node, iface, flags, out),
        Err(e) => Err(e),
    }
}

// Appends the lines of an interface's entries. `NoMemory`: a prefix of them is appended.
fn put_entries<R: Router>(
    line: &mut Vec<u8>,
    node: &R,
    iface: u8,
    flags: bool,
    out: &mut Vec<u8>,
) -> Result<(), NoMemory>
    ensures { (c : ℕ) → Says result out.old.items out.new.items (flat_map (entry_said flags) (entries_of (R.seen.place node.now) (R.seen.facts node.now c) iface)) }
{
    // The proof sees here that the entries are few.
    let _first = node.entry(iface, 0);
    for k in 0..ENTRIES {
        let Some(entry) = node.entry(iface, k) else {
            return Ok(());
        };
        say_entry(line, flags, &entry, out)?;
    }
    Ok(())
}

// Appends the line of an interface. `NoMemory`: nothing is appended.
fn say_head(
    line: &mut Vec<u8>,
    name: &[u8],
    held: u64,
    capacity: u64,
    out: &mut Vec<u8>,
) -> Result<(), NoMemory>
    ensures { Says result out.old.items out.new.items (head_text name.now held capacity) }
{
    line.clear();
    match put_head(line, name, held, capacity) {
        Ok(()) => say_line(line, out),
        Err(e) => Err(e),
    }
}

// Appends the line of an entry. `NoMemory`: nothing is appended.
fn say_entry(
    line: &mut Vec<u8>,
    flags: bool,
    entry: &Entry,
    out: &mut Vec<u8>,
) -> Result<(), NoMemory>
    ensures { Says result out.old.items out.new.items (entry_said flags entry.now) }
{
    line.clear();
    match put_said(line, flags, entry) {
        Ok(()) => say_line(line, out),
        Err(e) => Err(e),
    }
}

/// Appends a line in one piece. `NoMemory`: nothing is appended.
pub(crate) fn say_line(line: &Vec<u8>, out: &mut Vec<u8>) -> Result<(), NoMemory>
    ensures { Says result out.old.items out.new.items line.now.items }
{
    put_whole(out, line.as_slice())
}

// Appends the line of an entry, with its flags or without.
fn put_said(line: &mut Vec<u8>, flags: bool, entry: &Entry) -> Result<(), NoMemory>
    ensures { OnOk result (line.new.items ≡ line.old.items ++ entry_said flags entry.now) }
{
    if flags {
        put_line(line, entry.key, &entry.part, &police_text(entry.police))
    } else {
        put_entry(line, entry.key, &entry.part)
    }
}

// The flags of an entry, as they are written.
fn police_text(police: Police) -> [u8; 4]
    ensures { result ≡ police_text police }
{
    [
        b' ',
        flag(b'e', police.e),
        flag(b'm', police.m),
        flag(b'b', police.b),
    ]
}

// A flag, or `-`.
fn flag(set: u8, on: bool) -> u8
    ensures { result ∷ [] ≡ flag_text (set ∷ []) on }
{
    if on { set } else { b'-' }
}
