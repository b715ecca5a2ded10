//! The line of how much is in flight once a network has settled.
ghost use Rattle.std.specs.Prelude.{◌≡◌, ◌++◌, ◌&&◌, nat_lt, IfOk, OnOk};
ghost use Rattle.std.specs.Fmt.{decimal};
ghost use Rattle.network_demand.specs.Asked.{locals_of};
ghost use Rattle.network_demand.specs.Demands.{AreLocals};
ghost use Rattle.network_demand.specs.Overhead.{overhead};
ghost use Rattle.script_demand.specs.Texts.{crowds_text, room_line, room_text};

use itoa::Buffer;
use network_demand::{Locals, overhead};
use rsvp_base::NoMemory;
use std::alloc::Global;
use tree_routing::Routing;
use value_texts::put;

// How many datagrams may be in flight.
const MOST_IN_FLIGHT: u128 = 8192;

/// Appends how much is in flight once the network has settled, if its demands fit, and returns whether that may be more than there is
/// room for. `NoMemory`: there was no room to count or to write.
pub(crate) fn put_room(
    alloc: Global,
    out: &mut Vec<u8>,
    routing: &Routing,
    locals: &Locals,
    fits: bool,
) -> Result<bool, NoMemory>
    requires { AreLocals routing.now (locals_of locals.now) }
    ensures text { OnOk result (out.new.items ≡ out.old.items ++ room_text fits (overhead routing.now (locals_of locals.now))) }
    ensures crowds { IfOk result (λ crowds. crowds ≡ (fits && nat_lt 8192 (overhead routing.now (locals_of locals.now)))) }
{
    if !fits {
        return Ok(false);
    }
    let most = overhead(alloc, routing, locals)?;
    put_line(out, most)?;
    Ok(may_crowd(most))
}

// Whether so much is more than there is room for.
fn may_crowd(most: u128) -> bool
    ensures { result ≡ nat_lt 8192 most }
{
    most > MOST_IN_FLIGHT
}

#[tactic(auto, unfolding(crate::specs::Texts::room_line))]
fn put_line(out: &mut Vec<u8>, most: u128) -> Result<(), NoMemory>
    ensures { OnOk result (out.new.items ≡ out.old.items ++ room_line most) }
{
    put(out, b"room: settled, a round has at most ")?;
    put_sum(out, most)?;
    put(out, b" refreshes in flight, and 8192 datagrams may be: ")?;
    put_crowds(out, may_crowd(most))
}

// Appends whether later rounds may be crowded.
fn put_crowds(out: &mut Vec<u8>, may: bool) -> Result<(), NoMemory>
    ensures { OnOk result (out.new.items ≡ out.old.items ++ crowds_text may) }
{
    if may {
        return put(out, b"refreshes may crowd a later round\n");
    }
    put(out, b"refreshes crowd no later round\n")
}

// Appends a sum in decimal digits.
fn put_sum(out: &mut Vec<u8>, sum: u128) -> Result<(), NoMemory>
    ensures { OnOk result (out.new.items ≡ out.old.items ++ decimal sum) }
{
    let mut buffer = Buffer::new();
    put(out, buffer.format(sum).as_bytes())
}
