//! The answers that wait to be written.
ghost use Rattle.std.specs.Prelude.{◌≡◌, ◌≤◌, ◌+◌, ◌++◌, IfOk};
ghost use Rattle.laws_bounds.specs.CountLaws.{most_sends};
ghost use Rattle.node_stream.specs.Answers.{heard_frame};
ghost use Rattle.node_stream.specs.Posting.{nothing_posted, with_post};

use crate::answers::{put_heard, put_sent};
use message_codec::encode_into;
use router_rules::{Heard, Outbox};
use rsvp_base::{Addr, NoMemory};
use rsvp_messages::Message;
use rsvp_objects::Packet;
use std::alloc::Global;
use std::marker::Model;

// The most messages for one input.
const MOST_SENDS: usize = 37_889;

// Room for the frames of as many messages, of at most 1,024 bytes each, and for one that says what was made of a datagram.
const ROOM: usize = 1032 * (MOST_SENDS + 1);

/// The outbox of a stream: the frames with which a router answers one that came. They have room, which is taken at opening. Of memory
/// only as much is ever touched as the answers of one frame need.
#[derive(Drop)]
pub struct Answers {
    bytes: Vec<u8>,
    count: usize,
    // The message that was put last: it is written here, and then copied.
    packet: Packet,
}

impl Model for Answers {
    ghost use Rattle.std.specs.Prelude.{◌≤◌, ◌+◌, ◌*◌, vec_len, vec_capacity};
    ghost use Rattle.laws_bounds.specs.CountLaws.{most_sends};
    ghost use Rattle.node_stream.specs.Posting.{Posted};

    ghost Value = { Posted };

    ghost view = { λ a. record { bytes = a.bytes.items; count = a.count } };

    ghost invariant = { λ a. (vec_len a.bytes ≤ 1032 * a.count) × (a.count ≤ most_sends + 1) × (1032 * (most_sends + 1) ≤ vec_capacity a.bytes) };
}

impl Outbox for Answers {
    ghost posted = { with_post };

    fn post(&mut self, iface: u8, dst: Addr, message: &Message, refresh: bool) {
        let _ = refresh;
        if self.count < MOST_SENDS {
            encode_into(message, &mut self.packet);
            put_sent(&mut self.bytes, iface, dst, self.packet.bytes());
            self.count += 1;
        }
    }
}

impl Answers {
    /// None. `NoMemory`: there was no room for those of one input.
    pub fn open(alloc: Global) -> Result<Answers, NoMemory>
        ensures { IfOk result (λ a. a ≡ nothing_posted) }
    {
        let bytes = Vec::with_capacity(alloc, ROOM)?;
        Ok(Answers {
            bytes,
            count: 0,
            packet: Packet::new(),
        })
    }

    /// None again.
    pub fn clear(&mut self)
        ensures { self.new ≡ nothing_posted }
    {
        self.bytes.clear();
        self.count = 0;
    }

    /// Puts what was made of a datagram behind the others.
    pub fn put_heard(&mut self, heard: Heard)
        requires { self.old.count ≤ most_sends }
        ensures { self.new.bytes ≡ self.old.bytes ++ heard_frame heard }
    {
        put_heard(&mut self.bytes, heard);
        self.count += 1;
    }

    /// Their bytes.
    pub fn bytes(&self) -> &[u8]
        ensures { result.now ≡ self.now.bytes }
    {
        self.bytes.as_slice()
    }
}
