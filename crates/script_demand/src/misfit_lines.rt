//! Lines of what does not fit.
ghost use Rattle.std.specs.Prelude.{◌≡◌, ◌++◌, ◌==◌, [], OnOk, slice_get, if◌then◌else◌};
ghost use Rattle.std.specs.Fmt.{decimal};
ghost use Rattle.std.specs.List.{flat_map, list_any};
ghost use Rattle.network_demand.specs.Misfits.{largest_of};
ghost use Rattle.network_demand.specs.Books.{book_at};
ghost use Rattle.style_rules.specs.Lines.{held};
ghost use Rattle.script_demand.specs.Texts.{asker_line, capacity_of, clash_head, end_words, is_asker, is_of_session, large_head, large_words, mtu_of, name_at, over_head, over_words};
ghost use Rattle.script_demand.specs.Texts.{tables_line, want_line, wanter_line};
ghost use Rattle.script_demand.specs.Texts.{clash_text, large_text, misfits_text, over_text, tables_text};

use crate::late_lines::put_starved;
use crate::want_lines::{put_name_at, put_want_line};
use itoa::Buffer;
use network_demand::{Asker, EndBook, Findings, largest, sum_of_rates};
use rsvp_base::{EndName, NoMemory, Session};
use tree_routing::End;
use value_texts::{put, put_number, put_session};

/// Appends what does not fit, and who asks for it.
pub(crate) fn put_misfits(
    out: &mut Vec<u8>,
    nodes: &[EndName],
    names: &[EndName],
    ends: &[End],
    found: &Findings,
) -> Result<(), NoMemory>
    ensures { OnOk result (out.new.items ≡ out.old.items ++ misfits_text nodes.now names.now ends.now found.now) }
{
    put_overs(out, nodes, names, ends, found)?;
    put_larges(out, nodes, names, ends, found)?;
    put_clashes(out, nodes, names, found)?;
    put_tables(out, found.misfits.tables)
}

// Appends the ends that owe more than their capacity.
fn put_overs(
    out: &mut Vec<u8>,
    nodes: &[EndName],
    names: &[EndName],
    ends: &[End],
    found: &Findings,
) -> Result<(), NoMemory>
    ensures { OnOk result (out.new.items ≡ out.old.items ++ flat_map (over_text nodes.now names.now ends.now found.now) found.now.misfits.over.items) }
{
    for end in found.misfits.over.as_slice() {
        put_over(out, nodes, names, ends, found, *end)?;
    }
    Ok(())
}

// Appends an end that owes more than its capacity, and who asks there.
fn put_over(
    out: &mut Vec<u8>,
    nodes: &[EndName],
    names: &[EndName],
    ends: &[End],
    found: &Findings,
    end: usize,
) -> Result<(), NoMemory>
    ensures { OnOk result (out.new.items ≡ out.old.items ++ over_text nodes.now names.now ends.now found.now end) }
{
    let sum = sum_at(found.owed.as_slice(), end);
    put_over_head(out, names, end, sum, capacity_at(ends, end))?;
    put_askers(out, nodes, found.askers.as_slice(), end, 0)
}

// Appends the ends that owe packets above their MTU.
fn put_larges(
    out: &mut Vec<u8>,
    nodes: &[EndName],
    names: &[EndName],
    ends: &[End],
    found: &Findings,
) -> Result<(), NoMemory>
    ensures { OnOk result (out.new.items ≡ out.old.items ++ flat_map (large_text nodes.now names.now ends.now found.now) found.now.misfits.large.items) }
{
    for end in found.misfits.large.as_slice() {
        put_large(out, nodes, names, ends, found, *end)?;
    }
    Ok(())
}

// Appends an end that owes packets above its MTU, and who asks for them.
fn put_large(
    out: &mut Vec<u8>,
    nodes: &[EndName],
    names: &[EndName],
    ends: &[End],
    found: &Findings,
    end: usize,
) -> Result<(), NoMemory>
    ensures { OnOk result (out.new.items ≡ out.old.items ++ large_text nodes.now names.now ends.now found.now end) }
{
    let mtu = mtu_at(ends, end);
    let most = largest_at(found.owed.as_slice(), end);
    put_large_head(out, names, end, most, mtu)?;
    let least = u64::from(mtu) + 1;
    put_askers(out, nodes, found.askers.as_slice(), end, least)
}

// Appends the sessions that are wanted in two styles.
fn put_clashes(
    out: &mut Vec<u8>,
    nodes: &[EndName],
    names: &[EndName],
    found: &Findings,
) -> Result<(), NoMemory>
    ensures { OnOk result (out.new.items ≡ out.old.items ++ flat_map (clash_text nodes.now names.now found.now) found.now.misfits.clashing.items) }
{
    for session in found.misfits.clashing.as_slice() {
        put_clash(out, nodes, names, found, *session)?;
    }
    Ok(())
}

// Appends a session that is wanted in two styles, who wants it, and what starves of it.
fn put_clash(
    out: &mut Vec<u8>,
    nodes: &[EndName],
    names: &[EndName],
    found: &Findings,
    session: Session,
) -> Result<(), NoMemory>
    ensures { OnOk result (out.new.items ≡ out.old.items ++ clash_text nodes.now names.now found.now session) }
{
    put_clash_head(out, session)?;
    put_wanters(out, nodes, found.askers.as_slice(), session)?;
    put_starved(out, nodes, names, found.starved.as_slice(), session)
}

// Appends that tables are too small, if they are.
fn put_tables(out: &mut Vec<u8>, tables: bool) -> Result<(), NoMemory>
    ensures { OnOk result (out.new.items ≡ out.old.items ++ tables_text tables) }
{
    if tables { put_tables_line(out) } else { Ok(()) }
}

#[tactic(auto, unfolding(crate::specs::Texts::tables_line))]
fn put_tables_line(out: &mut Vec<u8>) -> Result<(), NoMemory>
    ensures { OnOk result (out.new.items ≡ out.old.items ++ tables_line) }
{
    put(
        out,
        b"misfit: a node would hold more than 1024 reservations of one style, or of one session for more than 64 next hops\n",
    )
}

// ---- heads

fn put_over_head(
    out: &mut Vec<u8>,
    names: &[EndName],
    end: usize,
    sum: u128,
    capacity: u64,
) -> Result<(), NoMemory>
    ensures { OnOk result (out.new.items ≡ out.old.items ++ over_head (name_at names.now end) sum capacity) }
{
    put_end(out, names, end)?;
    put_over_words(out, sum, capacity)
}

fn put_large_head(
    out: &mut Vec<u8>,
    names: &[EndName],
    end: usize,
    most: u32,
    mtu: u32,
) -> Result<(), NoMemory>
    ensures { OnOk result (out.new.items ≡ out.old.items ++ large_head (name_at names.now end) most mtu) }
{
    put_end(out, names, end)?;
    put_large_words(out, most, mtu)
}

#[tactic(auto, unfolding(crate::specs::Texts::end_words))]
fn put_end(out: &mut Vec<u8>, names: &[EndName], end: usize) -> Result<(), NoMemory>
    ensures { OnOk result (out.new.items ≡ out.old.items ++ end_words (name_at names.now end)) }
{
    put(out, b"misfit: end ")?;
    put_name_at(out, names, end)?;
    put(out, b" owes ")
}

#[tactic(auto, unfolding(crate::specs::Texts::over_words))]
fn put_over_words(out: &mut Vec<u8>, sum: u128, capacity: u64) -> Result<(), NoMemory>
    ensures { OnOk result (out.new.items ≡ out.old.items ++ over_words sum capacity) }
{
    put_sum(out, sum)?;
    put(out, b" bytes per second, and its capacity is ")?;
    put_number(out, capacity)?;
    put(out, b"\n")
}

#[tactic(auto, unfolding(crate::specs::Texts::large_words))]
fn put_large_words(out: &mut Vec<u8>, most: u32, mtu: u32) -> Result<(), NoMemory>
    ensures { OnOk result (out.new.items ≡ out.old.items ++ large_words most mtu) }
{
    put(out, b"packets of up to ")?;
    put_number(out, u64::from(most))?;
    put(out, b" bytes, and its MTU is ")?;
    put_number(out, u64::from(mtu))?;
    put(out, b"\n")
}

#[tactic(auto, unfolding(crate::specs::Texts::clash_head))]
fn put_clash_head(out: &mut Vec<u8>, session: Session) -> Result<(), NoMemory>
    ensures { OnOk result (out.new.items ≡ out.old.items ++ clash_head session) }
{
    put(out, b"misfit: session ")?;
    put_session(out, session)?;
    put(out, b" is wanted in two styles\n")
}

// Appends a sum in decimal digits.
fn put_sum(out: &mut Vec<u8>, sum: u128) -> Result<(), NoMemory>
    ensures { OnOk result (out.new.items ≡ out.old.items ++ decimal sum) }
{
    let mut buffer = Buffer::new();
    put(out, buffer.format(sum).as_bytes())
}

// ---- who asks

// Appends who asks at an end for packets of at least this size.
fn put_askers(
    out: &mut Vec<u8>,
    nodes: &[EndName],
    askers: &[Asker],
    end: usize,
    least: u64,
) -> Result<(), NoMemory>
    ensures { OnOk result (out.new.items ≡ out.old.items ++ flat_map (asker_line nodes.now end least) askers.now) }
{
    for asker in askers {
        put_line_if(out, nodes, asker, is_asker(asker, end, least))?;
    }
    Ok(())
}

// Appends who wants something of a session.
fn put_wanters(
    out: &mut Vec<u8>,
    nodes: &[EndName],
    askers: &[Asker],
    session: Session,
) -> Result<(), NoMemory>
    ensures { OnOk result (out.new.items ≡ out.old.items ++ flat_map (wanter_line nodes.now session) askers.now) }
{
    for asker in askers {
        put_line_if(out, nodes, asker, is_of_session(asker, session))?;
    }
    Ok(())
}

// Appends the line of a want, if this holds of it.
fn put_line_if(
    out: &mut Vec<u8>,
    nodes: &[EndName],
    asker: &Asker,
    holds: bool,
) -> Result<(), NoMemory>
    ensures { OnOk result (out.new.items ≡ out.old.items ++ (if holds then want_line nodes.now asker.now.want else [])) }
{
    if holds {
        return put_want_line(out, nodes, &asker.want);
    }
    Ok(())
}

// Whether someone asks at this end for packets of at least this size.
fn is_asker(asker: &Asker, end: usize, least: u64) -> bool
    ensures { result ≡ is_asker end least asker.now }
{
    is_among(asker.ends.as_slice(), end) && least <= u64::from(asker.want.part.flow.most)
}

// Whether a want is of this session.
fn is_of_session(asker: &Asker, session: Session) -> bool
    ensures { result ≡ is_of_session session asker.now }
{
    session == asker.want.session
}

fn is_among(numbers: &[usize], number: usize) -> bool
    ensures { result ≡ list_any (λ e. e == number) numbers.now }
{
    for one in numbers {
        if *one == number {
            return true;
        }
    }
    false
}

// ---- ends

// What an end owes, in bytes per second.
fn sum_at(owed: &[EndBook], end: usize) -> u128
    ensures { result ≡ held (book_at owed.now end) }
{
    match owed.get(end) {
        Some(book) => sum_of_rates(book.as_slice()),
        None => 0,
    }
}

// The size of the largest packet that an end owes, in bytes.
fn largest_at(owed: &[EndBook], end: usize) -> u32
    ensures { result ≡ largest_of (book_at owed.now end).rows }
{
    match owed.get(end) {
        Some(book) => largest(book.as_slice()),
        None => 0,
    }
}

fn capacity_at(ends: &[End], end: usize) -> u64
    ensures { result ≡ capacity_of (slice_get ends.now end) }
{
    match ends.get(end) {
        Some(end) => end.iface.capacity,
        None => 0,
    }
}

fn mtu_at(ends: &[End], end: usize) -> u32
    ensures { result ≡ mtu_of (slice_get ends.now end) }
{
    match ends.get(end) {
        Some(end) => end.iface.mtu,
        None => 0,
    }
}
