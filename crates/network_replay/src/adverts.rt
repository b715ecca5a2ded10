//! What the paths offer, by the end by which they came.
ghost use Rattle.std.specs.Prelude.{◌≡◌, ◌++◌, ℕ, OnOk, codes};
ghost use Rattle.std.specs.List.{flat_map};
ghost use Rattle.network_flight.specs.Runs.{adverts_report, end_report, whole_report};
ghost use Rattle.network_flight.specs.Texts.{advert_text};
ghost use Rattle.network_flight.specs.Worlds.{World as AWorld};
ghost use Rattle.network_replay.specs.Agreeing.{AreNodes};
ghost use Rattle.network_replay.specs.Reporting.{Says};
ghost use Rattle.router_rules.specs.Adverts.{adverts_of};
ghost use Rattle.value_texts.specs.Texts.{sender_text, session_text};

use crate::report::{count_of, say_line};
use crate::router::Router;
use network_flight::Wires;
use rsvp_base::{EndName, NoMemory, Sender, Session};
use rsvp_objects::Adspec;
use value_texts::{put, put_adspec_words, put_sender, put_session};

// A node has at most so many paths.
const PATHS: usize = 512;

/// Appends what the paths offer that came by each end. `NoMemory`: a prefix of it is appended. Each line is made in `line`.
pub(crate) fn put_adverts<R: Router>(
    line: &mut Vec<u8>,
    names: &[EndName],
    wires: &Wires,
    nodes: &[R],
    out: &mut Vec<u8>,
) -> Result<(), NoMemory>
    ensures { (q : ℕ) (w : AWorld) → w.net ≡ wires.now → AreNodes R.seen q w nodes.now → Says result out.old.items out.new.items (whole_report q names.now adverts_report w) }
{
    let ends = count_of(wires);
    for end in 0..ends {
        put_offers(line, names, wires, nodes, end, out)?;
    }
    Ok(())
}

// Appends those of an end; nothing where it has no name, or is not there, or its node is not. `NoMemory`: a prefix is appended.
fn put_offers<R: Router>(
    line: &mut Vec<u8>,
    names: &[EndName],
    wires: &Wires,
    nodes: &[R],
    end: u16,
    out: &mut Vec<u8>,
) -> Result<(), NoMemory>
    ensures { (q : ℕ) (w : AWorld) → w.net ≡ wires.now → AreNodes R.seen q w nodes.now → Says result out.old.items out.new.items (end_report q names.now adverts_report w end) }
{
    let Some(name) = names.get(end as usize) else {
        return Ok(());
    };
    let Some((number, iface)) = wires.place_of(end) else {
        return Ok(());
    };
    let Some(node) = nodes.get(number as usize) else {
        return Ok(());
    };
    put_paths(line, name.bytes(), node, iface, out)
}

// Appends those of an interface of a node. `NoMemory`: a prefix of them is appended.
fn put_paths<R: Router>(
    line: &mut Vec<u8>,
    name: &[u8],
    node: &R,
    iface: u8,
    out: &mut Vec<u8>,
) -> Result<(), NoMemory>
    ensures { (c : ℕ) → Says result out.old.items out.new.items (flat_map (advert_text name.now) (adverts_of (R.seen.facts node.now c) iface)) }
{
    // The proof sees here that they are few.
    let _first = node.advert_at(iface, 0);
    for k in 0..PATHS {
        let Some((session, sender, adspec)) = node.advert_at(iface, k) else {
            return Ok(());
        };
        say_path(line, name, session, sender, &adspec, out)?;
    }
    Ok(())
}

// Appends the line of a path. `NoMemory`: nothing is appended.
fn say_path(
    line: &mut Vec<u8>,
    name: &[u8],
    session: Session,
    sender: Sender,
    adspec: &Adspec,
    out: &mut Vec<u8>,
) -> Result<(), NoMemory>
    ensures { Says result out.old.items out.new.items (advert_text name.now ((session, sender), adspec.now)) }
{
    line.clear();
    match put_path(line, name, session, sender, adspec) {
        Ok(()) => say_line(line, out),
        Err(e) => Err(e),
    }
}

// Appends the words of the line of a path.
fn put_path(
    line: &mut Vec<u8>,
    name: &[u8],
    session: Session,
    sender: Sender,
    adspec: &Adspec,
) -> Result<(), NoMemory>
    ensures { OnOk result (line.new.items ≡ line.old.items ++ advert_text name.now ((session, sender), adspec.now)) }
{
    put_whose(line, name, session, sender)?;
    put_adspec_words(line, adspec)?;
    put(line, b"\n")
}

// Appends whose line it is: that of an end, of a session and of a sender.
fn put_whose(
    line: &mut Vec<u8>,
    name: &[u8],
    session: Session,
    sender: Sender,
) -> Result<(), NoMemory>
    ensures { OnOk result (line.new.items ≡ line.old.items ++ (name.now ++ codes " " ++ session_text session ++ codes " " ++ sender_text sender)) }
{
    put(line, name)?;
    put(line, b" ")?;
    put_session(line, session)?;
    put(line, b" ")?;
    put_sender(line, sender)
}
