//! Writing the objects of each kind of message.
ghost use Rattle.std.specs.Prelude.{◌≡◌, ◌<◌, ◌+◌, ◌++◌, false, length, OnOk, IsErr};
ghost use Rattle.rsvp_objects.specs.declared.object.Object.TheVariants as AnObject;
ghost use Rattle.rsvp_objects.specs.Spelling.{spelling};
ghost use Rattle.message_codec.specs.Encoding.{spellings};
ghost use Rattle.message_codec.specs.Objects.{where_there, sender_objects, path_objects, resv_objects, path_err_objects, resv_err_objects, path_tear_objects, resv_tear_objects};
ghost use Rattle.message_codec.specs.Objects.{resv_conf_objects, objects_of};

use crate::lists::{put_ask, put_blame, put_tear};
use rsvp_base::{Addr, Flow, Full, Sender, Session};
use rsvp_messages::{
    Message, PathErrMsg, PathMsg, PathTearMsg, ResvConfMsg, ResvErrMsg, ResvMsg, ResvTearMsg,
};
use rsvp_objects::{Adspec, Packet, put};

/// The objects of a message. `Full` only where they do not fit.
pub fn put_objects(message: &Message, packet: &mut Packet) -> Result<(), Full>
    ensures ok { OnOk result (packet.new ≡ packet.old ++ spellings (objects_of message.now)) }
    ensures full { IsErr result → 4096 < length packet.old + length (spellings (objects_of message.now)) }
{
    match message {
        Message::Path(m) => put_path(m, packet),
        Message::Resv(m) => put_resv(m, packet),
        Message::PathErr(m) => put_path_err(m, packet),
        Message::ResvErr(m) => put_resv_err(m, packet),
        Message::PathTear(m) => put_path_tear(m, packet),
        Message::ResvTear(m) => put_resv_tear(m, packet),
        Message::ResvConf(m) => put_resv_conf(m, packet),
    }
}

fn put_path(m: &PathMsg, packet: &mut Packet) -> Result<(), Full>
    ensures ok { OnOk result (packet.new ≡ packet.old ++ spellings (path_objects m.now)) }
    ensures full { IsErr result → 4096 < length packet.old + length (spellings (path_objects m.now)) }
{
    put::session(&m.session, m.police, packet)?;
    put::hop(m.hop, packet)?;
    put::time(m.period, packet)?;
    put_offer(&m.sender, packet)?;
    put_advert(&m.adspec, packet)
}

fn put_resv(m: &ResvMsg, packet: &mut Packet) -> Result<(), Full>
    ensures ok { OnOk result (packet.new ≡ packet.old ++ spellings (resv_objects m.now)) }
    ensures full { IsErr result → 4096 < length packet.old + length (spellings (resv_objects m.now)) }
{
    put_session(&m.session, packet)?;
    put::hop(m.hop, packet)?;
    put::time(m.period, packet)?;
    put_confirm(m.confirm, packet)?;
    put_ask(&m.ask, packet)
}

fn put_path_err(m: &PathErrMsg, packet: &mut Packet) -> Result<(), Full>
    ensures ok { OnOk result (packet.new ≡ packet.old ++ spellings (path_err_objects m.now)) }
    ensures full { IsErr result → 4096 < length packet.old + length (spellings (path_err_objects m.now)) }
{
    put_session(&m.session, packet)?;
    put::error(&m.err, packet)?;
    put_template(m.sender, packet)
}

fn put_resv_err(m: &ResvErrMsg, packet: &mut Packet) -> Result<(), Full>
    ensures ok { OnOk result (packet.new ≡ packet.old ++ spellings (resv_err_objects m.now)) }
    ensures full { IsErr result → 4096 < length packet.old + length (spellings (resv_err_objects m.now)) }
{
    put_session(&m.session, packet)?;
    put::hop(m.hop, packet)?;
    put::error(&m.err, packet)?;
    put_blame(&m.blame, packet)
}

fn put_path_tear(m: &PathTearMsg, packet: &mut Packet) -> Result<(), Full>
    ensures ok { OnOk result (packet.new ≡ packet.old ++ spellings (path_tear_objects m.now)) }
    ensures full { IsErr result → 4096 < length packet.old + length (spellings (path_tear_objects m.now)) }
{
    put_session(&m.session, packet)?;
    put::hop(m.hop, packet)?;
    put_template(m.sender, packet)
}

fn put_resv_tear(m: &ResvTearMsg, packet: &mut Packet) -> Result<(), Full>
    ensures ok { OnOk result (packet.new ≡ packet.old ++ spellings (resv_tear_objects m.now)) }
    ensures full { IsErr result → 4096 < length packet.old + length (spellings (resv_tear_objects m.now)) }
{
    put_session(&m.session, packet)?;
    put::hop(m.hop, packet)?;
    put_tear(&m.tear, packet)
}

fn put_resv_conf(m: &ResvConfMsg, packet: &mut Packet) -> Result<(), Full>
    ensures ok { OnOk result (packet.new ≡ packet.old ++ spellings (resv_conf_objects m.now)) }
    ensures full { IsErr result → 4096 < length packet.old + length (spellings (resv_conf_objects m.now)) }
{
    put_session(&m.session, packet)?;
    put::error(&m.err, packet)?;
    put::confirm(m.confirm, packet)?;
    put_ask(&m.ask, packet)
}

// A SESSION outside a Path.
#[inline(always)]
fn put_session(session: &Session, packet: &mut Packet) -> Result<(), Full>
    ensures ok { OnOk result (packet.new ≡ packet.old ++ spelling (AnObject.Session session.now false)) }
    ensures full { IsErr result → 4096 < length packet.old + length (spelling (AnObject.Session session.now false)) }
{
    put::session(session, false, packet)
}

// SENDER_TEMPLATE and SENDER_TSPEC.
fn put_offer(offer: &Option<(Sender, Flow)>, packet: &mut Packet) -> Result<(), Full>
    ensures ok { OnOk result (packet.new ≡ packet.old ++ spellings (sender_objects offer.now)) }
    ensures full { IsErr result → 4096 < length packet.old + length (spellings (sender_objects offer.now)) }
{
    match offer {
        None => Ok(()),
        Some((sender, flow)) => {
            put::template(*sender, packet)?;
            put::tspec(flow, packet)
        }
    }
}

fn put_advert(adspec: &Option<Adspec>, packet: &mut Packet) -> Result<(), Full>
    ensures ok { OnOk result (packet.new ≡ packet.old ++ spellings (where_there AnObject.Advert adspec.now)) }
    ensures full { IsErr result → 4096 < length packet.old + length (spellings (where_there AnObject.Advert adspec.now)) }
{
    match adspec {
        None => Ok(()),
        Some(adspec) => put::advert(adspec, packet),
    }
}

fn put_template(sender: Option<Sender>, packet: &mut Packet) -> Result<(), Full>
    ensures ok { OnOk result (packet.new ≡ packet.old ++ spellings (where_there AnObject.Template sender)) }
    ensures full { IsErr result → 4096 < length packet.old + length (spellings (where_there AnObject.Template sender)) }
{
    match sender {
        None => Ok(()),
        Some(sender) => put::template(sender, packet),
    }
}

fn put_confirm(receiver: Option<Addr>, packet: &mut Packet) -> Result<(), Full>
    ensures ok { OnOk result (packet.new ≡ packet.old ++ spellings (where_there AnObject.Confirm receiver)) }
    ensures full { IsErr result → 4096 < length packet.old + length (spellings (where_there AnObject.Confirm receiver)) }
{
    match receiver {
        None => Ok(()),
        Some(receiver) => put::confirm(receiver, packet),
    }
}
