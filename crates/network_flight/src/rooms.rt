//! The rooms of datagrams.
ghost use Rattle.std.specs.Prelude.{◌≡◌, ◌≤◌, ◌<◌, ◌+◌, [], length, vec_len, vec_capacity};
ghost use Rattle.network_flight.specs.Rooms.{IsTaken};

use arrayvec::ArrayVec;
use rsvp_objects::Packet;
use std::marker::Model;

/// The bytes of the longest datagram that a short room has place for.
pub(crate) const MOST_SHORT: usize = 248;

/// A room for a short datagram: at most 248 bytes. Contracts see the list of them.
#[derive(Drop)]
pub(crate) struct Short {
    list: ArrayVec<u8, MOST_SHORT>,
}

impl Model for Short {
    ghost use Rattle.std.specs.Prelude.{List, ℕ, length, ◌≤◌};

    ghost Value = { List ℕ };

    ghost view = { λ s. s.list.items };

    ghost invariant = { λ s. length s.list.items ≤ 248 };
}

impl Short {
    /// A room without bytes.
    pub(crate) fn new() -> Short
        ensures { result ≡ [] }
    {
        Short {
            list: ArrayVec::new(),
        }
    }

    /// The bytes.
    pub(crate) fn bytes(&self) -> &[u8]
        ensures bytes { result.now ≡ self.now }
        ensures few { length self.now ≤ 248 }
    {
        self.list.as_slice()
    }

    /// Puts bytes in place of those that are there.
    pub(crate) fn fill(&mut self, bytes: &[u8])
        requires { length bytes.now ≤ 248 }
        ensures { self.new ≡ bytes.now }
    {
        self.list.clear();
        let _ = self.list.try_extend_from_slice(bytes);
    }
}

/// Takes a short room into use: one that is free, or else one that is made.
pub(crate) fn take_short(rooms: &mut Vec<Short>, free: &mut Vec<u16>) -> u16
    requires room { 8192 ≤ vec_capacity rooms.old }
    requires most { vec_len rooms.old ≤ 8192 }
    requires spare { vec_len rooms.old < 8192 + length free.old.items }
    ensures taken { IsTaken result free.old.items free.new.items rooms.old.items rooms.new.items }
    ensures rooms { vec_capacity rooms.new ≡ vec_capacity rooms.old }
    ensures made { vec_len rooms.new ≤ 8192 }
    ensures free { vec_capacity free.new ≡ vec_capacity free.old }
{
    if let Some(room) = free.pop() {
        return room;
    }
    let room = rooms.len() as u16;
    rooms.push_reserved(Short::new());
    room
}

/// Takes a long room into use: one that is free, or else one that is made.
pub(crate) fn take_long(rooms: &mut Vec<Packet>, free: &mut Vec<u16>) -> u16
    requires room { 8192 ≤ vec_capacity rooms.old }
    requires most { vec_len rooms.old ≤ 8192 }
    requires spare { vec_len rooms.old < 8192 + length free.old.items }
    ensures taken { IsTaken result free.old.items free.new.items rooms.old.items rooms.new.items }
    ensures rooms { vec_capacity rooms.new ≡ vec_capacity rooms.old }
    ensures made { vec_len rooms.new ≤ 8192 }
    ensures free { vec_capacity free.new ≡ vec_capacity free.old }
{
    if let Some(room) = free.pop() {
        return room;
    }
    let room = rooms.len() as u16;
    rooms.push_reserved(Packet::new());
    room
}
