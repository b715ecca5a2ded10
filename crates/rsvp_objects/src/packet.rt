//! Packets.
ghost use Rattle.std.specs.Prelude.{◌≡◌, ◌≤◌, ◌<◌, ◌+◌, ◌++◌, ◌↔◌, [], length, slice_set, IfOk, OnOk, OnErr, IsErr};

use arrayvec::ArrayVec;
use rsvp_base::Full;
use std::marker::Model;

// The bytes of the largest datagram that is sent or read.
const MOST_BYTES: usize = 4096;

/// A list of at most 4,096 bytes. Contracts see that list.
#[derive(Drop)]
pub struct Packet {
    list: ArrayVec<u8, MOST_BYTES>,
}

impl Model for Packet {
    ghost use Rattle.std.specs.Prelude.{List, ℕ, length, ◌≤◌};

    ghost Value = { List ℕ };

    ghost view = { λ p. p.list.items };

    ghost invariant = { λ p. length p.list.items ≤ 4096 };
}

impl Packet {
    /// The empty packet.
    pub fn new() -> Packet
        ensures { result ≡ [] }
    {
        Packet {
            list: ArrayVec::new(),
        }
    }

    /// The packet with these bytes. `Full` exactly where they are more than 4,096.
    pub fn of(bytes: &[u8]) -> Result<Packet, Full>
        ensures ok { IfOk result (λ p. p ≡ bytes.now) }
        ensures full { IsErr result ↔ (4096 < length bytes.now) }
    {
        let mut packet = Packet::new();
        packet.append(bytes)?;
        Ok(packet)
    }

    /// The bytes.
    pub fn bytes(&self) -> &[u8]
        ensures bytes { result.now ≡ self.now }
        ensures few { length self.now ≤ 4096 }
    {
        self.list.as_slice()
    }

    /// Puts bytes at the end. `Full` exactly where they do not fit; nothing changes then.
    #[inline(always)]
    pub fn append(&mut self, bytes: &[u8]) -> Result<(), Full>
        ensures ok { OnOk result (self.new ≡ self.old ++ bytes.now) }
        ensures full { IsErr result ↔ (4096 < length self.old + length bytes.now) }
        ensures err { OnErr result (self.new ≡ self.old) }
    {
        match self.list.try_extend_from_slice(bytes) {
            Ok(()) => Ok(()),
            Err(_) => Err(Full),
        }
    }

    /// Takes all bytes out.
    pub fn clear(&mut self)
        ensures { self.new ≡ [] }
    {
        self.list.clear();
    }

    /// Writes a byte over the one at a place.
    #[tactic(auto, using(rsvp_base::proofs::Rows::written_back))]
    pub fn set(&mut self, at: usize, byte: u8)
        requires { at < length self.old }
        ensures { self.new ≡ slice_set self.old at byte }
    {
        self.list[at] = byte;
    }

    /// An equal packet.
    pub fn copy(&self) -> Packet
        ensures { result ≡ self.now }
    {
        let mut packet = Packet::new();
        let _ = packet.append(self.bytes());
        packet
    }
}

impl Default for Packet {
    fn default() -> Packet
        ensures { result ≡ [] }
    {
        Packet::new()
    }
}
