//! What a node sends is put in flight, for each end to which it goes.
ghost use Rattle.std.specs.Prelude.{◌≡◌, ◌<◌, ◌++◌, ◌↔◌, ℕ, IsErr, length, map, take};
ghost use Rattle.std.specs.List.{filter, list_any};
ghost use Rattle.message_codec.specs.Encoding.{encoding};
ghost use Rattle.network_model.specs.Links.{ends_toward, goes_to, is_group};
ghost use Rattle.network_flight.specs.Parcels.{parcel};
ghost use Rattle.network_model.specs.NodeConfig.{is_addr};
ghost use Rattle.tree_model.specs.Goals.{addr_of};

use crate::flight::Flight;
use crate::wires::Wires;
use rsvp_base::{Addr, Full};
use rsvp_messages::Message;

/// Puts a copy in flight for each end to which goes what is sent out of an end. `Full` exactly where there is not room for all;
/// as many are in flight then as there is room for.
pub fn put_copies(
    wires: &Wires,
    flight: &mut Flight,
    from: Option<u16>,
    dst: Addr,
    message: &Message,
) -> Result<(), Full>
    requires { (e : ℕ) → from ≡ Some e → e < length wires.now.ends }
    ensures put { flight.new ≡ take 8192 (flight.old ++ map (parcel dst (encoding message.now)) (goes_to wires.now from dst)) }
    ensures full { IsErr result ↔ (8192 < length (flight.old ++ map (parcel dst (encoding message.now)) (goes_to wires.now from dst))) }
{
    match from {
        Some(end) => put_toward(wires, flight, wires.peers(end), dst, message),
        None => put_each(flight, &[], dst, message),
    }
}

// Puts a copy in flight for each of these ends toward which it goes.
#[tactic(auto, using(crate::proofs::Copies::to_group, crate::proofs::Copies::to_addressed, crate::proofs::Copies::to_none))]
fn put_toward(
    wires: &Wires,
    flight: &mut Flight,
    ends: &[u16],
    dst: Addr,
    message: &Message,
) -> Result<(), Full>
    ensures put { flight.new ≡ take 8192 (flight.old ++ map (parcel dst (encoding message.now)) (ends_toward wires.now (is_group dst) dst ends.now)) }
    ensures full { IsErr result ↔ (8192 < length (flight.old ++ map (parcel dst (encoding message.now)) (ends_toward wires.now (is_group dst) dst ends.now))) }
{
    if is_group(dst) {
        return put_each(flight, ends, dst, message);
    }
    if has_addressed(wires, ends, dst) {
        put_addressed(wires, flight, ends, dst, message)
    } else {
        put_each(flight, ends, dst, message)
    }
}

// Whether it is a multicast group (RFC 1112, 4).
fn is_group(addr: Addr) -> bool
    ensures { result ≡ is_group addr }
{
    3_758_096_384 <= addr.0 && addr.0 < 4_026_531_840
}

// Whether one of the ends has the address.
fn has_addressed(wires: &Wires, ends: &[u16], dst: Addr) -> bool
    ensures { result ≡ list_any (λ e. is_addr (addr_of wires.now e) dst) ends.now }
{
    for end in ends {
        if wires.addr_of(*end).0 == dst.0 {
            return true;
        }
    }
    false
}

// Puts a copy in flight for each of these ends.
fn put_each(flight: &mut Flight, ends: &[u16], dst: Addr, message: &Message) -> Result<(), Full>
    ensures put { flight.new ≡ take 8192 (flight.old ++ map (parcel dst (encoding message.now)) ends.now) }
    ensures full { IsErr result ↔ (8192 < length (flight.old ++ map (parcel dst (encoding message.now)) ends.now)) }
{
    for end in ends {
        flight.send(*end, dst, message)?;
    }
    let _ = flight.len();
    Ok(())
}

// Puts a copy in flight for each of these ends that has the address.
fn put_addressed(
    wires: &Wires,
    flight: &mut Flight,
    ends: &[u16],
    dst: Addr,
    message: &Message,
) -> Result<(), Full>
    ensures put { flight.new ≡ take 8192 (flight.old ++ map (parcel dst (encoding message.now)) (filter (λ e. is_addr (addr_of wires.now e) dst) ends.now)) }
    ensures full { IsErr result ↔ (8192 < length (flight.old ++ map (parcel dst (encoding message.now)) (filter (λ e. is_addr (addr_of wires.now e) dst) ends.now))) }
{
    for end in ends {
        if wires.addr_of(*end).0 == dst.0 {
            flight.send(*end, dst, message)?;
        }
    }
    let _ = flight.len();
    Ok(())
}
