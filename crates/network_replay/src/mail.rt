//! The outbox of a network.
ghost use Rattle.std.specs.Prelude.{◌≡◌, ◌||◌, ◌≤◌, ◌∷◌, [], true, false, IfOk, IfSome, IfNone, MatchOption, None, Some, length, map, slice_get};
ghost use Rattle.std.specs.List.{remove};
ghost use Rattle.message_codec.specs.Encoding.{encoding};
ghost use Rattle.network_flight.specs.Links.{goes_to};
ghost use Rattle.tree_model.specs.Networks.{end_at};
ghost use Rattle.network_flight.specs.Parcels.{Parcel as AParcel, parcel};
ghost use Rattle.network_replay.specs.Posting.{put_behind, with_post};

use message_codec::know_range;
use network_flight::{Flight, Wires, put_copies};
use router_rules::Outbox;
use rsvp_base::{Addr, NoMemory};
use rsvp_messages::Message;
use rsvp_objects::Packet;
use std::alloc::Global;
use std::marker::Model;
use tree_routing::Routing;

/// The outbox of a network: what a node posts is in flight at once, for each end to which it goes. Contracts see the network,
/// the node that posts, what is in flight, whether more was posted than there is room for, and whether all messages that were
/// posted are in range, which those of code always are. No call but `open` takes memory.
#[derive(Drop)]
pub struct Mail {
    wires: Wires,
    from: u16,
    flight: Flight,
    full: bool,
}

impl Model for Mail {
    ghost use Rattle.std.specs.Prelude.{true};
    ghost use Rattle.network_replay.specs.Posting.{Post};

    ghost Value = { Post };

    ghost view = { λ m. record { net = m.wires; from = m.from; flight = m.flight; full = m.full; in_range = true } };
}

impl Outbox for Mail {
    ghost posted = { with_post };

    fn post(&mut self, iface: u8, dst: Addr, message: &Message, refresh: bool) {
        let _ = refresh;
        // The proof sees here that what was posted is in range, and so is the message.
        let _full = self.is_full();
        know_range(message);
        self.send(iface, dst, message);
    }
}

impl Mail {
    /// Nothing in flight along these wires. `NoMemory`: there was no room for what may be.
    pub fn open(alloc: Global, wires: Wires) -> Result<Mail, NoMemory>
        ensures { IfOk result (λ m. m ≡ record { net = wires; from = 0; flight = []; full = false; in_range = true }) }
    {
        let flight = Flight::open(alloc)?;
        Ok(Mail {
            wires,
            from: 0,
            flight,
            full: false,
        })
    }

    /// The wires.
    pub fn wires(&self) -> &Wires
        ensures wires { result.now ≡ self.now.net }
        ensures most { length self.now.flight ≤ 8192 }
        ensures range { self.now.in_range ≡ true }
    {
        let _ = self.flight.len();
        &self.wires
    }

    /// Another routing over the same ends and links is in force from now on.
    pub fn set_routing(&mut self, routing: Routing)
        requires nodes { routing.nodes ≡ self.old.net.nodes }
        requires ends { routing.ends ≡ self.old.net.ends }
        requires links { routing.links ≡ self.old.net.links }
        ensures { self.new ≡ record self.old { net = routing } }
    {
        self.wires.set_routing(routing);
    }

    /// How many datagrams are in flight.
    pub fn len(&self) -> usize
        ensures len { result ≡ length self.now.flight }
        ensures most { length self.now.flight ≤ 8192 }
    {
        self.flight.len()
    }

    /// Whether more was posted than there is room for.
    pub fn is_full(&self) -> bool
        ensures full { result ≡ self.now.full }
        ensures range { self.now.in_range ≡ true }
    {
        self.full
    }

    /// From now on this node posts.
    pub fn set_from(&mut self, node: u16)
        ensures from { self.new ≡ record self.old { from = node } }
        ensures most { length self.new.flight ≤ 8192 }
    {
        let _ = self.flight.len();
        self.from = node;
    }

    // Puts a message that goes out by an interface behind the others, for each end to which it goes.
    fn send(&mut self, iface: u8, dst: Addr, message: &Message)
        ensures { self.new ≡ put_behind (map (parcel dst (encoding message.now)) (goes_to self.old.net (end_at self.old.net.ends self.old.from iface) dst)) self.old }
    {
        let from = self.wires.end_at(self.from, iface);
        let put = put_copies(&self.wires, &mut self.flight, from, dst, message);
        let over = put.is_err();
        self.full = either(self.full, over);
    }

    /// Puts bytes behind the others, on their way to an end.
    pub fn put(&mut self, end: u16, dst: Addr, bytes: &[u8])
        requires { length bytes.now ≤ 4096 }
        ensures { self.new ≡ put_behind (parcel dst bytes.now end ∷ []) self.old }
    {
        let put = self.flight.put(end, dst, bytes);
        let over = put.is_err();
        self.full = either(self.full, over);
    }

    /// The bytes of the datagram at a place, counted from 0. `None` exactly where nothing is there.
    pub fn packet(&self, place: usize) -> Option<&[u8]>
        ensures { MatchOption result (slice_get self.now.flight place ≡ None) (λ b. (p : AParcel) × (slice_get self.now.flight place ≡ Some p) × (p.bytes ≡ b.now)) }
    {
        self.flight.packet(place)
    }

    /// The end and the destination of the datagram at a place, counted from 0; its bytes are put in `hand`. `None` exactly
    /// where nothing is there.
    pub fn look(&self, place: usize, hand: &mut Box<Packet>) -> Option<(u16, Addr)>
        ensures some { IfSome result (λ to. slice_get self.now.flight place ≡ Some (record { end = to.0; dst = to.1; bytes = hand.new.value })) }
        ensures none { IfNone result ((slice_get self.now.flight place ≡ None) × (hand.new ≡ hand.old)) }
    {
        self.flight.look(place, hand)
    }

    /// Takes the datagram at a place, counted from 0, and puts its bytes in `hand`. `None` exactly where nothing is there; nothing
    /// changes then.
    pub fn take(&mut self, place: usize, hand: &mut Box<Packet>) -> Option<(u16, Addr)>
        ensures some { IfSome result (λ to. slice_get self.old.flight place ≡ Some (record { end = to.0; dst = to.1; bytes = hand.new.value })) }
        ensures rest { self.new ≡ record self.old { flight = remove self.old.flight place } }
        ensures none { IfNone result ((slice_get self.old.flight place ≡ None) × (self.new ≡ self.old) × (hand.new ≡ hand.old)) }
    {
        self.flight.take(place, hand)
    }
}

fn either(a: bool, b: bool) -> bool
    ensures { result ≡ (a || b) }
{
    a || b
}
