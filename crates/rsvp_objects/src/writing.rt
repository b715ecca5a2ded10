//! Writing objects.
ghost use Rattle.std.specs.Prelude.{◌≡◌, ◌≤◌, ◌<◌, ◌+◌, ◌++◌, ◌↔◌, length, OnOk, OnErr, IsErr};
ghost use Rattle.rsvp_objects.specs.Spelling.{spelling};

use crate::object::Object;
use crate::packet::Packet;
use crate::put;
use rsvp_base::Full;

/// Puts an object at the end of a packet. `Full` exactly where it does not fit; nothing changes then.
pub fn put_object(object: &Object, packet: &mut Packet) -> Result<(), Full>
    ensures ok { OnOk result (packet.new ≡ packet.old ++ spelling object.now) }
    ensures full { IsErr result ↔ (4096 < length packet.old + length (spelling object.now)) }
    ensures err { OnErr result (packet.new ≡ packet.old) }
{
    match object {
        Object::Session { session, police } => put::session(session, *police, packet),
        Object::HopOf(hop) => put::hop(*hop, packet),
        Object::Time(period) => put::time(*period, packet),
        Object::Error(error) => put::error(error, packet),
        Object::Scope(senders) => put::scope(senders, packet),
        Object::StyleOf(style) => put::style(*style, packet),
        Object::FlowOf(flow) => put::flow(flow, packet),
        Object::Filter(sender) => put::filter(*sender, packet),
        Object::Template(sender) => put::template(*sender, packet),
        Object::Tspec(flow) => put::tspec(flow, packet),
        Object::Advert(adspec) => put::advert(adspec, packet),
        Object::Confirm(receiver) => put::confirm(*receiver, packet),
        Object::Skipped { class } => put::skipped(*class, packet),
    }
}
