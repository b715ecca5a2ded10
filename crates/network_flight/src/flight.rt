//! The datagrams in flight.
ghost use Rattle.std.specs.Prelude.{◌≡◌, ◌≤◌, ◌<◌, ◌+◌, ◌↔◌, ◌++◌, ◌∷◌, ℕ, List, [], cond, get_or, length, map, None, IfOk, IfSome, IfNone, OnOk, OnErr, IsErr, MatchOption};
ghost use Rattle.std.specs.Prelude.{slice_get, Some, vec_len, vec_capacity};
ghost use Rattle.std.specs.List.{remove};
ghost use Rattle.std.specs.VecDeque.{deque_capacity};
ghost use Rattle.message_codec.specs.Encoding.{encoding};
ghost use Rattle.network_flight.specs.Parcels.{Parcel as AParcel};
ghost use Rattle.network_flight.specs.Rooms.{AreApart, is_long, is_short, rooms_of, seen};

use crate::rooms::{MOST_SHORT, Short, take_long, take_short};
use message_codec::encode_into;
use rsvp_base::{Addr, Full, NoMemory};
use rsvp_messages::Message;
use rsvp_objects::Packet;
use std::alloc::Global;
use std::collections::VecDeque;
use std::marker::Model;

/// How many datagrams may be in flight.
pub const MOST_PARCELS: usize = 8192;

// A datagram on its way to an end, and the number of the room that its bytes are in.
#[derive(Drop)]
struct Parcel {
    end: u16,
    dst: Addr,
    room: u16,
    // Whether it is one of the long rooms.
    long: bool,
}

/// The datagrams in flight, in the order of sending, at most 8,192. All memory is taken at the opening, and none of it is touched
/// before it is used: a room is made where none is free, and is free again once its datagram was taken out. There are short rooms
/// and long ones, since nearly all datagrams are short.
#[derive(Drop)]
pub struct Flight {
    queue: VecDeque<Parcel>,
    // The short rooms that were made, and those of them that are free.
    short: Vec<Short>,
    free_short: Vec<u16>,
    // The long ones, likewise.
    long: Vec<Packet>,
    free_long: Vec<u16>,
}

impl Model for Flight {
    ghost use Rattle.std.specs.Prelude.{◌≤◌, List, length, map, vec_len, vec_capacity};
    ghost use Rattle.std.specs.VecDeque.{deque_capacity};
    ghost use Rattle.network_flight.specs.Parcels.{Parcel as AParcel};
    ghost use Rattle.network_flight.specs.Rooms.{AreApart, is_long, is_short, rooms_of, seen};

    ghost Value = { List AParcel };

    ghost view = { λ f. map (seen f.short.items f.long.items) f.queue.items };

    ghost invariant = { λ f. AreApart (rooms_of is_short f.queue.items) f.free_short.items (vec_len f.short)
        × AreApart (rooms_of is_long f.queue.items) f.free_long.items (vec_len f.long)
        × (vec_len f.short ≤ 8192) × (8192 ≤ vec_capacity f.short) × (8192 ≤ vec_capacity f.free_short)
        × (vec_len f.long ≤ 8192) × (8192 ≤ vec_capacity f.long) × (8192 ≤ vec_capacity f.free_long)
        × (8192 ≤ deque_capacity f.queue) × (length f.queue.items ≤ 8192) };
}

impl Flight {
    /// Nothing in flight, with room for 8,192 datagrams. `NoMemory`: it could not be had.
    pub fn open(alloc: Global) -> Result<Flight, NoMemory>
        ensures { IfOk result (λ f. f ≡ []) }
    {
        let queue = VecDeque::with_capacity(alloc, MOST_PARCELS)?;
        let short = Vec::with_capacity(alloc, MOST_PARCELS)?;
        let free_short = Vec::with_capacity(alloc, MOST_PARCELS)?;
        let long = Vec::with_capacity(alloc, MOST_PARCELS)?;
        let free_long = Vec::with_capacity(alloc, MOST_PARCELS)?;
        Ok(Flight {
            queue,
            short,
            free_short,
            long,
            free_long,
        })
    }

    /// How many there are.
    pub fn len(&self) -> usize
        ensures len { result ≡ length self.now }
        ensures most { length self.now ≤ 8192 }
    {
        self.queue.len()
    }

    /// Puts the bytes of a message behind the others, on their way to an end. `Full` exactly where 8,192 are in flight; nothing
    /// changes then.
    pub fn send(&mut self, end: u16, dst: Addr, message: &Message) -> Result<(), Full>
        ensures ok { OnOk result (self.new ≡ self.old ++ (record { end = end; dst = dst; bytes = encoding message.now }) ∷ []) }
        ensures most { length self.new ≤ 8192 }
        ensures full { IsErr result ↔ (8192 ≤ length self.old) }
        ensures err { OnErr result (self.new ≡ self.old) }
    {
        if self.queue.len() == MOST_PARCELS {
            return Err(Full);
        }
        // The bytes are written in a long room, and stay there where they have no place in a short one.
        let room = take_long(&mut self.long, &mut self.free_long);
        encode_into(message, &mut self.long[usize::from(room)]);
        let bytes = self.long[usize::from(room)].bytes();
        if bytes.len() <= MOST_SHORT {
            put_short(
                &mut self.queue,
                &mut self.short,
                &mut self.free_short,
                end,
                dst,
                bytes,
            );
            self.free_long.push_reserved(room);
        } else {
            let _ = self.queue.push_back(Parcel {
                end,
                dst,
                room,
                long: true,
            });
        }
        Ok(())
    }

    /// Puts bytes behind the others, on their way to an end. `Full` exactly where 8,192 are in flight; nothing changes then.
    pub fn put(&mut self, end: u16, dst: Addr, bytes: &[u8]) -> Result<(), Full>
        requires { length bytes.now ≤ 4096 }
        ensures ok { OnOk result (self.new ≡ self.old ++ (record { end = end; dst = dst; bytes = bytes.now }) ∷ []) }
        ensures most { length self.new ≤ 8192 }
        ensures full { IsErr result ↔ (8192 ≤ length self.old) }
        ensures err { OnErr result (self.new ≡ self.old) }
    {
        if self.queue.len() == MOST_PARCELS {
            return Err(Full);
        }
        if bytes.len() <= MOST_SHORT {
            put_short(
                &mut self.queue,
                &mut self.short,
                &mut self.free_short,
                end,
                dst,
                bytes,
            );
        } else {
            let room = take_long(&mut self.long, &mut self.free_long);
            fill(&mut self.long[usize::from(room)], bytes);
            let _ = self.queue.push_back(Parcel {
                end,
                dst,
                room,
                long: true,
            });
        }
        Ok(())
    }

    /// The bytes of the datagram at a place, counted from 0. `None` exactly where nothing is there.
    pub fn packet(&self, place: usize) -> Option<&[u8]>
        ensures { MatchOption result (slice_get self.now place ≡ None) (λ b. (p : AParcel) × (slice_get self.now place ≡ Some p) × (p.bytes ≡ b.now)) }
    {
        match self.queue.get(place) {
            Some(parcel) => Some(bytes_of(&self.short, &self.long, parcel)),
            None => None,
        }
    }

    /// The end and the destination of the datagram at a place, counted from 0; its bytes are put in `hand`. `None` exactly
    /// where nothing is there.
    pub fn look(&self, place: usize, hand: &mut Box<Packet>) -> Option<(u16, Addr)>
        ensures some { IfSome result (λ to. slice_get self.now place ≡ Some (record { end = to.0; dst = to.1; bytes = hand.new.value })) }
        ensures none { IfNone result ((slice_get self.now place ≡ None) × (hand.new ≡ hand.old)) }
    {
        let Some(parcel) = self.queue.get(place) else {
            return None;
        };
        fill(&mut **hand, bytes_of(&self.short, &self.long, parcel));
        Some((parcel.end, parcel.dst))
    }

    /// Takes the datagram at a place, counted from 0, and puts its bytes in `hand`. `None` exactly where nothing is there; nothing
    /// changes then.
    pub fn take(&mut self, place: usize, hand: &mut Box<Packet>) -> Option<(u16, Addr)>
        ensures some { IfSome result (λ to. slice_get self.old place ≡ Some (record { end = to.0; dst = to.1; bytes = hand.new.value })) }
        ensures rest { self.new ≡ remove self.old place }
        ensures none { IfNone result ((slice_get self.old place ≡ None) × (self.new ≡ self.old) × (hand.new ≡ hand.old)) }
    {
        let Some(parcel) = self.queue.remove(place) else {
            return None;
        };
        fill(&mut **hand, bytes_of(&self.short, &self.long, &parcel));
        if parcel.long {
            self.free_long.push_reserved(parcel.room);
        } else {
            self.free_short.push_reserved(parcel.room);
        }
        Some((parcel.end, parcel.dst))
    }
}

/// Room for one datagram. `NoMemory`: it could not be had.
pub fn room(alloc: Global) -> Result<Box<Packet>, NoMemory>
    ensures { IfOk result (λ r. r.value ≡ []) }
{
    Ok(Box::new(alloc, Packet::new())?)
}

// Puts bytes in a short room, behind the others.
fn put_short(
    queue: &mut VecDeque<Parcel>,
    short: &mut Vec<Short>,
    free: &mut Vec<u16>,
    end: u16,
    dst: Addr,
    bytes: &[u8],
)
    requires apart { AreApart (rooms_of is_short queue.old.items) free.old.items (vec_len short.old) }
    requires few { length queue.old.items < 8192 }
    requires most { vec_len short.old ≤ 8192 }
    requires room { 8192 ≤ vec_capacity short.old }
    requires place { 8192 ≤ deque_capacity queue.old }
    requires fits { length bytes.now ≤ 248 }
    ensures apart { AreApart (rooms_of is_short queue.new.items) free.new.items (vec_len short.new) }
    ensures long { rooms_of is_long queue.new.items ≡ rooms_of is_long queue.old.items }
    ensures put { (long : List (List ℕ)) → map (seen short.new.items long) queue.new.items
        ≡ map (seen short.old.items long) queue.old.items ++ (record { end = end; dst = dst; bytes = bytes.now }) ∷ [] }
    ensures len { length queue.new.items ≡ length queue.old.items + 1 }
    ensures most { vec_len short.new ≤ 8192 }
    ensures room { vec_capacity short.new ≡ vec_capacity short.old }
    ensures free { vec_capacity free.new ≡ vec_capacity free.old }
    ensures place { 8192 ≤ deque_capacity queue.new }
{
    let room = take_short(short, free);
    short[usize::from(room)].fill(bytes);
    let _ = queue.push_back(Parcel {
        end,
        dst,
        room,
        long: false,
    });
}

// The bytes of a datagram.
fn bytes_of<'a>(short: &'a [Short], long: &'a [Packet], parcel: &Parcel) -> &'a [u8]
    requires made { parcel.now.room < length (cond parcel.now.long long.now short.now) }
    ensures bytes { result.now ≡ get_or (cond parcel.now.long long.now short.now) parcel.now.room [] }
    ensures few { length result.now ≤ 4096 }
{
    if parcel.long {
        long[usize::from(parcel.room)].bytes()
    } else {
        short[usize::from(parcel.room)].bytes()
    }
}

// Puts bytes in place of those of a packet.
fn fill(packet: &mut Packet, bytes: &[u8])
    requires { length bytes.now ≤ 4096 }
    ensures { packet.new ≡ bytes.now }
{
    packet.clear();
    let _ = packet.append(bytes);
}
