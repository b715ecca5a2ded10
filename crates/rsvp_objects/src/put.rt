//! Putting an object of each class at the end of a packet.
ghost use Rattle.std.specs.Prelude.{◌≡◌, ◌≤◌, ◌<◌, ◌+◌, ◌*◌, ◌++◌, ◌↔◌, length, OnOk, OnErr, IsErr};
ghost use Rattle.rsvp_base.specs.Table.{size};
ghost use Rattle.rsvp_objects.specs.declared.read_class.ReadClass.TheVariants as ReadClass;
ghost use Rattle.rsvp_objects.specs.declared.object.Object.TheVariants as AnObject;
ghost use Rattle.rsvp_objects.specs.Contents.{source_bytes, scope_bytes};
ghost use Rattle.rsvp_objects.specs.Spelling.{spelt_as, spelling};

use crate::adspec::Adspec;
use crate::adspec_writing::write_adspec;
use crate::packet::Packet;
use crate::read_class::ReadClass;
use crate::values::service;
use crate::{places, texts};
use byteorder::{BigEndian, ByteOrder};
use rsvp_base::{Addr, ErrSpec, Flow, Full, Hop, Sender, Senders, Session, StyleKind};

// The most bytes that a packet has, and those of a head.
const MOST_BYTES: usize = 4096;

const HEAD_SIZE: usize = 4;

/// Puts a SESSION at the end of a packet. `Full` exactly where it does not fit; nothing changes then.
#[tactic(auto, unfolding(crate::specs::Spelling::spelling))]
#[inline(always)]
pub fn session(session: &Session, police: bool, packet: &mut Packet) -> Result<(), Full>
    ensures ok { OnOk result (packet.new ≡ packet.old ++ spelling (AnObject.Session session.now police)) }
    ensures full { IsErr result ↔ (4096 < length packet.old + length (spelling (AnObject.Session session.now police))) }
    ensures err { OnErr result (packet.new ≡ packet.old) }
{
    packet.append(&texts::session(session, police))
}

/// Puts an RSVP_HOP at the end of a packet. `Full` exactly where it does not fit; nothing changes then.
#[tactic(auto, unfolding(crate::specs::Spelling::spelling))]
#[inline(always)]
pub fn hop(hop: Hop, packet: &mut Packet) -> Result<(), Full>
    ensures ok { OnOk result (packet.new ≡ packet.old ++ spelling (AnObject.HopOf hop)) }
    ensures full { IsErr result ↔ (4096 < length packet.old + length (spelling (AnObject.HopOf hop))) }
    ensures err { OnErr result (packet.new ≡ packet.old) }
{
    packet.append(&texts::hop(hop))
}

/// Puts a TIME_VALUES at the end of a packet. `Full` exactly where it does not fit; nothing changes then.
#[tactic(auto, unfolding(crate::specs::Spelling::spelling))]
#[inline(always)]
pub fn time(period: u32, packet: &mut Packet) -> Result<(), Full>
    ensures ok { OnOk result (packet.new ≡ packet.old ++ spelling (AnObject.Time period)) }
    ensures full { IsErr result ↔ (4096 < length packet.old + length (spelling (AnObject.Time period))) }
    ensures err { OnErr result (packet.new ≡ packet.old) }
{
    packet.append(&texts::time(period))
}

/// Puts an ERROR_SPEC at the end of a packet. `Full` exactly where it does not fit; nothing changes then.
#[tactic(auto, unfolding(crate::specs::Spelling::spelling))]
#[inline(always)]
pub fn error(error: &ErrSpec, packet: &mut Packet) -> Result<(), Full>
    ensures ok { OnOk result (packet.new ≡ packet.old ++ spelling (AnObject.Error error.now)) }
    ensures full { IsErr result ↔ (4096 < length packet.old + length (spelling (AnObject.Error error.now))) }
    ensures err { OnErr result (packet.new ≡ packet.old) }
{
    packet.append(&texts::error(error))
}

/// Puts a SCOPE at the end of a packet. `Full` exactly where it does not fit; nothing changes then.
#[tactic(auto, using(crate::proofs::Sources::scope_size), unfolding(crate::specs::Spelling::spelling))]
#[inline(always)]
pub fn scope(senders: &Senders, packet: &mut Packet) -> Result<(), Full>
    ensures ok { OnOk result (packet.new ≡ packet.old ++ spelling (AnObject.Scope senders.now)) }
    ensures full { IsErr result ↔ (4096 < length packet.old + length (spelling (AnObject.Scope senders.now))) }
    ensures err { OnErr result (packet.new ≡ packet.old) }
{
    let size = HEAD_SIZE + places::ADDR_SIZE * senders.len();
    if packet.bytes().len() + size > MOST_BYTES {
        return Err(Full);
    }
    put_scope(senders, packet);
    Ok(())
}

/// Puts a STYLE at the end of a packet. `Full` exactly where it does not fit; nothing changes then.
#[tactic(auto, unfolding(crate::specs::Spelling::spelling))]
#[inline(always)]
pub fn style(style: StyleKind, packet: &mut Packet) -> Result<(), Full>
    ensures ok { OnOk result (packet.new ≡ packet.old ++ spelling (AnObject.StyleOf style)) }
    ensures full { IsErr result ↔ (4096 < length packet.old + length (spelling (AnObject.StyleOf style))) }
    ensures err { OnErr result (packet.new ≡ packet.old) }
{
    packet.append(&texts::style(style))
}

/// Puts a FLOWSPEC at the end of a packet. `Full` exactly where it does not fit; nothing changes then.
#[tactic(auto, unfolding(crate::specs::Spelling::spelling))]
#[inline(always)]
pub fn flow(flow: &Flow, packet: &mut Packet) -> Result<(), Full>
    ensures ok { OnOk result (packet.new ≡ packet.old ++ spelling (AnObject.FlowOf flow.now)) }
    ensures full { IsErr result ↔ (4096 < length packet.old + length (spelling (AnObject.FlowOf flow.now))) }
    ensures err { OnErr result (packet.new ≡ packet.old) }
{
    packet.append(&texts::flow(ReadClass::FlowSpec, service::CONTROLLED_LOAD, flow))
}

/// Puts a FILTER_SPEC at the end of a packet. `Full` exactly where it does not fit; nothing changes then.
#[tactic(auto, unfolding(crate::specs::Spelling::spelling))]
#[inline(always)]
pub fn filter(sender: Sender, packet: &mut Packet) -> Result<(), Full>
    ensures ok { OnOk result (packet.new ≡ packet.old ++ spelling (AnObject.Filter sender)) }
    ensures full { IsErr result ↔ (4096 < length packet.old + length (spelling (AnObject.Filter sender))) }
    ensures err { OnErr result (packet.new ≡ packet.old) }
{
    packet.append(&texts::sender(ReadClass::FilterSpec, sender))
}

/// Puts a SENDER_TEMPLATE at the end of a packet. `Full` exactly where it does not fit; nothing changes then.
#[tactic(auto, unfolding(crate::specs::Spelling::spelling))]
#[inline(always)]
pub fn template(sender: Sender, packet: &mut Packet) -> Result<(), Full>
    ensures ok { OnOk result (packet.new ≡ packet.old ++ spelling (AnObject.Template sender)) }
    ensures full { IsErr result ↔ (4096 < length packet.old + length (spelling (AnObject.Template sender))) }
    ensures err { OnErr result (packet.new ≡ packet.old) }
{
    packet.append(&texts::sender(ReadClass::SenderTemplate, sender))
}

/// Puts a SENDER_TSPEC at the end of a packet. `Full` exactly where it does not fit; nothing changes then.
#[tactic(auto, unfolding(crate::specs::Spelling::spelling))]
#[inline(always)]
pub fn tspec(flow: &Flow, packet: &mut Packet) -> Result<(), Full>
    ensures ok { OnOk result (packet.new ≡ packet.old ++ spelling (AnObject.Tspec flow.now)) }
    ensures full { IsErr result ↔ (4096 < length packet.old + length (spelling (AnObject.Tspec flow.now))) }
    ensures err { OnErr result (packet.new ≡ packet.old) }
{
    packet.append(&texts::flow(ReadClass::SenderTspec, service::GENERAL, flow))
}

/// Puts an ADSPEC at the end of a packet. `Full` exactly where it does not fit; nothing changes then.
#[tactic(auto, unfolding(crate::specs::Spelling::spelling))]
#[inline(always)]
pub fn advert(adspec: &Adspec, packet: &mut Packet) -> Result<(), Full>
    ensures ok { OnOk result (packet.new ≡ packet.old ++ spelling (AnObject.Advert adspec.now)) }
    ensures full { IsErr result ↔ (4096 < length packet.old + length (spelling (AnObject.Advert adspec.now))) }
    ensures err { OnErr result (packet.new ≡ packet.old) }
{
    write_adspec(adspec, packet)
}

/// Puts a RESV_CONFIRM at the end of a packet. `Full` exactly where it does not fit; nothing changes then.
#[tactic(auto, unfolding(crate::specs::Spelling::spelling))]
#[inline(always)]
pub fn confirm(receiver: Addr, packet: &mut Packet) -> Result<(), Full>
    ensures ok { OnOk result (packet.new ≡ packet.old ++ spelling (AnObject.Confirm receiver)) }
    ensures full { IsErr result ↔ (4096 < length packet.old + length (spelling (AnObject.Confirm receiver))) }
    ensures err { OnErr result (packet.new ≡ packet.old) }
{
    packet.append(&texts::confirm(receiver))
}

/// Puts the head alone of an object that is skipped at the end of a packet. `Full` exactly where it does not fit; nothing changes then.
#[tactic(auto, unfolding(crate::specs::Spelling::spelling))]
#[inline(always)]
pub fn skipped(class: u8, packet: &mut Packet) -> Result<(), Full>
    ensures ok { OnOk result (packet.new ≡ packet.old ++ spelling (AnObject.Skipped class)) }
    ensures full { IsErr result ↔ (4096 < length packet.old + length (spelling (AnObject.Skipped class))) }
    ensures err { OnErr result (packet.new ≡ packet.old) }
{
    packet.append(&texts::skipped(class))
}

// Puts the text of a SCOPE, where there is room.
fn put_scope(senders: &Senders, packet: &mut Packet)
    requires { length packet.old + 4 + 4 * size senders.now ≤ 4096 }
    ensures { packet.new ≡ packet.old ++ spelt_as ReadClass.Scope (scope_bytes senders.now) }
{
    let sources = senders.as_slice();
    let mut head = [0; HEAD_SIZE];
    texts::put_head(&mut head, ReadClass::Scope, 4 + 4 * sources.len() as u16);
    let _ = packet.append(&head);
    for source in sources {
        put_source(*source, packet);
    }
}

// The address of a sender, where there is room.
fn put_source(source: Sender, packet: &mut Packet)
    requires { length packet.old ≤ 4092 }
    ensures { packet.new ≡ packet.old ++ source_bytes source }
{
    let mut addr = [0; places::ADDR_SIZE];
    BigEndian::write_u32(&mut addr, source.addr.0);
    let _ = packet.append(&addr);
}
