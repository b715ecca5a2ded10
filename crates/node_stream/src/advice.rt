//! The line of text that says what is wrong with a frame.
ghost use Rattle.std.specs.Prelude.{◌≡◌, ◌≤◌, ◌<◌, ◌++◌, List, ℕ, OnErr, OnOk, length, vec_capacity};
ghost use Rattle.std.specs.Fmt.{decimal};
ghost use Rattle.line_advice.specs.Blamed.{most_advice, most_wanted};
ghost use Rattle.node_stream.specs.Advice.{IsAdvice, cut_text, length_form, one_text, two_text, wanted_text, way_text};

use crate::blame::Blame;
use line_advice::{Blames, put_blamed_line};
use rsvp_base::NoMemory;
use value_texts::{put, put_number};

/// Makes `advice`, for which there is room, the text that says what is wrong with a frame, without a line feed: two spaces; the kind,
/// the field and its number; and what is wanted.
pub fn put_advice(blame: Blame, advice: &mut Vec<u8>)
    requires room { most_advice ≤ vec_capacity advice.old }
    ensures { IsAdvice blame advice.new.items }
{
    put_blamed_line(advice, b"", &blame)
}

impl Blames for Blame {
    ghost use Rattle.std.specs.Prelude.{None};
    ghost use Rattle.node_stream.specs.Advice.{wanted_text};

    ghost number = { λ _. None };

    ghost wanted = { wanted_text };

    fn number_of_word(&self) -> Option<usize> {
        None
    }

    fn is_short(&self) {
        wanted_is_short(*self)
    }

    fn put_wanted(&self, out: &mut Vec<u8>) -> Result<(), NoMemory> {
        put_wanted(out, *self)
    }
}

// Does nothing: what is wanted has at most 512 bytes, since the numbers in it have at most 20 digits.
#[tactic(auto, using(crate::proofs::Short::wanted_short))]
fn wanted_is_short(blame: Blame)
    ensures { length (wanted_text blame) ≤ most_wanted }
{
    match blame {
        Blame::Head => {}
        Blame::Again => {}
        Blame::Cut { kind, wanted, got } => {
            are_short(u64::from(kind), wanted as u64, got as u64);
        }
        Blame::Kind { kind } => are_short(u64::from(kind), 0, 0),
        Blame::Length { kind, size } => are_short(u64::from(kind), size as u64, 0),
        Blame::Early { kind } => are_short(u64::from(kind), 0, 0),
        Blame::Period { ms } => are_short(u64::from(ms), 0, 0),
        Blame::ManyIfaces { count } => are_short(count as u64, 0, 0),
        Blame::Capacity { iface, bytes } => are_short(iface as u64, bytes, 0),
        Blame::Mtu { iface, bytes } => are_short(iface as u64, u64::from(bytes), 0),
        Blame::SameAddr { iface } => are_short(iface as u64, 0, 0),
        Blame::Inward {
            route,
            iface,
            count,
        } => {
            are_short(route as u64, u64::from(iface), count as u64);
        }
        Blame::Outward { route, ways, count } => {
            are_short(route as u64, u64::from(ways), count as u64);
        }
        Blame::SameTree { route } => are_short(route as u64, 0, 0),
        Blame::NoIface { iface, count } => are_short(u64::from(iface), count as u64, 0),
        Blame::Wait { ms, most } => are_short(u64::from(ms), u64::from(most), 0),
    }
}

// Does nothing: these numbers have at most 20 digits.
#[tactic(auto, using(crate::proofs::Short::number_short))]
fn are_short(n: u64, m: u64, k: u64)
    ensures first { length (decimal n) ≤ 20 }
    ensures second { length (decimal m) ≤ 20 }
    ensures third { length (decimal k) ≤ 20 }
{
    let _ = (n, m, k);
}

// Appends what is wanted.
fn put_wanted(out: &mut Vec<u8>, blame: Blame) -> Result<(), NoMemory>
    ensures text { OnOk result (out.new.items ≡ out.old.items ++ wanted_text blame) }
    ensures full { OnErr result (vec_capacity out.old < length (out.old.items ++ wanted_text blame)) }
    ensures kept { vec_capacity out.old ≤ vec_capacity out.new }
{
    match blame {
        Blame::Head => put(
            out,
            b"the input ends inside the three bytes with which a frame begins",
        ),
        Blame::Cut { kind, wanted, got } => put_cut(out, u64::from(kind), wanted, got),
        Blame::Kind { kind } => put_one(
            out,
            b"kind ",
            u64::from(kind),
            b": a frame that comes is of kind 1 to 4",
        ),
        Blame::Length { kind, size } => put_two(
            out,
            b"kind ",
            u64::from(kind),
            b", length ",
            size as u64,
            length_form(kind),
        ),
        Blame::Early { kind } => put_one(
            out,
            b"kind ",
            u64::from(kind),
            b": the first frame is of kind 1, which says where the router stands",
        ),
        Blame::Again => put(
            out,
            b"kind 1: the router is open, and only the first frame is of kind 1",
        ),
        Blame::Period { ms } => put_one(
            out,
            b"kind 1, period ",
            u64::from(ms),
            b": a period is 1000 to 60000 milliseconds, and a multiple of 4",
        ),
        Blame::ManyIfaces { count } => put_one(
            out,
            b"kind 1, number of interfaces ",
            count as u64,
            b": a router has at most 16",
        ),
        Blame::Capacity { iface, bytes } => put_two(
            out,
            b"kind 1, interface ",
            iface as u64,
            b", capacity ",
            bytes,
            b": a capacity is below 70368744177664 bytes per second",
        ),
        Blame::Mtu { iface, bytes } => put_two(
            out,
            b"kind 1, interface ",
            iface as u64,
            b", MTU ",
            u64::from(bytes),
            b": an MTU is 1 to 65535 bytes",
        ),
        Blame::SameAddr { iface } => put_one(
            out,
            b"kind 1, interface ",
            iface as u64,
            b", address: an interface before has it",
        ),
        Blame::Inward {
            route,
            iface,
            count,
        } => put_way(out, route, b", inward ", u64::from(iface), count),
        Blame::Outward { route, ways, count } => put_way(
            out,
            route,
            b", outward ",
            u64::from(ways),
            count,
        ),
        Blame::SameTree { route } => put_one(
            out,
            b"kind 1, route ",
            route as u64,
            b", group and source: a route before has them",
        ),
        Blame::NoIface { iface, count } => put_two(
            out,
            b"kind 2, interface ",
            u64::from(iface),
            b": the router has ",
            count as u64,
            b" interfaces, numbered from 0",
        ),
        Blame::Wait { ms, most } => put_two(
            out,
            b"kind 3, milliseconds ",
            u64::from(ms),
            b": a wait is 1 to ",
            u64::from(most),
            b", half of the period",
        ),
    }
}

// What the length of a frame of this kind is.
fn length_form(kind: u8) -> &'static [u8]
    ensures { result.now ≡ length_form kind }
{
    match kind {
        1 => b": the contents are 7 bytes, and 16 for each interface and 11 for each route",
        2 => b": the contents are 5 bytes and the datagram",
        3 => b": the contents are 8 bytes",
        _ => b": it has no contents",
    }
}

#[tactic(auto, unfolding(crate::specs::Advice::cut_text))]
fn put_cut(out: &mut Vec<u8>, kind: u64, wanted: usize, got: usize) -> Result<(), NoMemory>
    ensures text { OnOk result (out.new.items ≡ out.old.items ++ cut_text kind wanted got) }
    ensures full { OnErr result (vec_capacity out.old < length (out.old.items ++ cut_text kind wanted got)) }
    ensures kept { vec_capacity out.old ≤ vec_capacity out.new }
{
    put_two(
        out,
        b"kind ",
        kind,
        b", length ",
        wanted as u64,
        b": the input ends behind ",
    )?;
    put_number(out, got as u64)?;
    put(out, b" of these bytes")
}

#[tactic(auto, unfolding(crate::specs::Advice::way_text))]
fn put_way(
    out: &mut Vec<u8>,
    route: usize,
    way: &[u8],
    number: u64,
    count: usize,
) -> Result<(), NoMemory>
    ensures text { OnOk result (out.new.items ≡ out.old.items ++ way_text route way.now number count) }
    ensures full { OnErr result (vec_capacity out.old < length (out.old.items ++ way_text route way.now number count)) }
    ensures kept { vec_capacity out.old ≤ vec_capacity out.new }
{
    put_two(
        out,
        b"kind 1, route ",
        route as u64,
        way,
        number,
        b": the router has ",
    )?;
    put_number(out, count as u64)?;
    put(out, b" interfaces, numbered from 0")
}

// A number between texts.
#[tactic(auto, unfolding(crate::specs::Advice::one_text))]
fn put_one(out: &mut Vec<u8>, before: &[u8], n: u64, after: &[u8]) -> Result<(), NoMemory>
    ensures text { OnOk result (out.new.items ≡ out.old.items ++ one_text before.now n after.now) }
    ensures full { OnErr result (vec_capacity out.old < length (out.old.items ++ one_text before.now n after.now)) }
    ensures kept { vec_capacity out.old ≤ vec_capacity out.new }
{
    put(out, before)?;
    put_number(out, n)?;
    put(out, after)
}

// Two numbers between texts.
#[tactic(auto, unfolding(crate::specs::Advice::two_text))]
fn put_two(
    out: &mut Vec<u8>,
    before: &[u8],
    n: u64,
    between: &[u8],
    m: u64,
    after: &[u8],
) -> Result<(), NoMemory>
    ensures text { OnOk result (out.new.items ≡ out.old.items ++ two_text before.now n between.now m after.now) }
    ensures full { OnErr result (vec_capacity out.old < length (out.old.items ++ two_text before.now n between.now m after.now)) }
    ensures kept { vec_capacity out.old ≤ vec_capacity out.new }
{
    put(out, before)?;
    put_number(out, n)?;
    put(out, between)?;
    put_number(out, m)?;
    put(out, after)
}
