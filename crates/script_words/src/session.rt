//! Sessions and senders: their form and their range.
ghost use Rattle.std.specs.Prelude.{◌≡◌, ◌↔◌, IsSome, IfSome};
ghost use Rattle.script_words.specs.Unread.{ReadsAs};
ghost use Rattle.script_words.specs.Sessions.{session_of, sender_of, senders_of, IsSession, IsSender, session_value, sender_value};

use crate::address::is_group;
use crate::numbers::number;
use crate::parts::{first_part, three_parts, two_parts};
use crate::raw::{DottedQuad, SenderWord, SessionWord};
use crate::unread::Unread;
use rsvp_base::{Sender, Session};
use std::alloc::Global;

impl SessionWord {
    /// The numbers of a session word; None where it is not `GROUP/PROTO/PORT`.
    #[tactic(auto, unfolding(crate::specs::Sessions::session_of))]
    pub fn of(word: &[u8]) -> Option<SessionWord>
        ensures { result ≡ session_of word.now }
    {
        let (group, proto, port) = three_parts(word, b'/')?;
        Some(SessionWord {
            group: DottedQuad::of(group)?,
            proto: number(proto)?,
            port: number(port)?,
        })
    }

    /// The session of these numbers; None exactly where its group is no multicast group, its protocol is not 1 to 255
    /// or its port is above 65,535.
    pub fn session(&self) -> Option<Session>
        ensures some { IsSome result ↔ IsSession self.now }
        ensures value { IfSome result (λ session. session ≡ session_value self.now) }
    {
        let group = self.group.addr()?;
        let proto = u8::try_from(self.proto).ok()?;
        let port = u16::try_from(self.port).ok()?;
        if !is_group(group) || proto == 0 {
            return None;
        }
        Some(Session { group, proto, port })
    }
}

impl SenderWord {
    /// The numbers of a sender word; None where it is not `ADDR:PORT`.
    #[tactic(auto, unfolding(crate::specs::Sessions::sender_of))]
    pub fn of(word: &[u8]) -> Option<SenderWord>
        ensures { result ≡ sender_of word.now }
    {
        let (addr, port) = two_parts(word, b':')?;
        Some(SenderWord {
            addr: DottedQuad::of(addr)?,
            port: number(port)?,
        })
    }

    /// The sender of these numbers; None exactly where a part of its address is above 255 or its port is above 65,535.
    pub fn sender(&self) -> Option<Sender>
        ensures some { IsSome result ↔ IsSender self.now }
        ensures value { IfSome result (λ sender. sender ≡ sender_value self.now) }
    {
        Some(Sender {
            addr: self.addr.addr()?,
            port: u16::try_from(self.port).ok()?,
        })
    }
}

/// The senders of a word, joined by commas.
///
/// `Word` exactly where a part is no sender word.
pub fn senders(alloc: Global, word: &[u8]) -> Result<Vec<SenderWord>, Unread>
    ensures { ReadsAs (λ v. v.items) result (senders_of word.now) }
{
    let mut senders = Vec::new(alloc);
    let mut rest = word;
    while let Some((first, behind)) = first_part(rest, b',') {
        senders.push(SenderWord::of(first).ok_or(Unread::Word)?)?;
        rest = behind;
    }
    senders.push(SenderWord::of(rest).ok_or(Unread::Word)?)?;
    Ok(senders)
}
