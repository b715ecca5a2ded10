//! The work on messages that is timed: one is read, or written, again and again, each time of another session.
ghost use Rattle.std.specs.Prelude.{◌<◌};

use crate::tables::{Served, both, once};
use crate::vectors::{Vector, bytes_of};
use message_codec::{decode, encode_into};
use rsvp_base::{Addr, ErrSpec, Flow, Hop, Peak, Sender, Senders, Session};
use rsvp_messages::{
    Ask, Blame, Message, PathErrMsg, PathMsg, PathTearMsg, ResvConfMsg, ResvErrMsg, ResvMsg,
    ResvTearMsg, Tear,
};
use rsvp_objects::{Adspec, Packet};

/// Which message, and whether it is written or read.
#[derive(Clone, Copy)]
pub struct Speech {
    pub vector: Vector,
    pub is_written: bool,
}

// Where the last byte of the session's address stands in each message, where that of its port, and what the two are together.
const GROUP: usize = 15;

const PORT: usize = 19;

const BOTH: u8 = 0x8d;

const SESSION_END: usize = 20;

/// Reads or writes the message so many times. `None`: its bytes are none.
pub fn message_times(speech: Speech, times: u32) -> Option<Served> {
    let mut packet = Packet::of(bytes_of(speech.vector)).ok()?;
    if speech.is_written {
        return encode_times(&packet, times);
    }
    decode_times(&mut packet, times)
}

fn decode_times(packet: &mut Packet, times: u32) -> Option<Served> {
    let mut all = Served::default();
    for k in 0..times {
        turn_bytes(packet, step(k))?;
        match decode(packet.bytes()) {
            Ok(message) => all = both(all, once(weight(&message))),
            Err(_) => return None,
        }
    }
    Some(all)
}

fn encode_times(packet: &Packet, times: u32) -> Option<Served> {
    let mut message = decode(packet.bytes()).ok()?;
    let mut text = Packet::new();
    let mut all = Served::default();
    for k in 0..times {
        turn(&mut message, step(k));
        encode_into(&message, &mut text);
        all = both(all, once(check(text.bytes())));
    }
    Some(all)
}

// The byte that stands last in the address of the session of this turn.
fn step(k: u32) -> u8
    ensures few { result < 128 }
{
    (k % 128) as u8
}

// Writes another session into the bytes of a message. What its address has more its port has less, so the checksum stays.
fn turn_bytes(packet: &mut Packet, step: u8) -> Option<()>
    requires { step < 128 }
{
    if packet.bytes().len() < SESSION_END {
        return None;
    }
    packet.set(GROUP, step);
    packet.set(PORT, BOTH - step);
    Some(())
}

// Gives a message that session.
fn turn(message: &mut Message, step: u8)
    requires { step < 128 }
{
    let session = Session {
        group: Addr(0xef01_0100 + u32::from(step)),
        proto: 17,
        port: 0x1300 + u16::from(BOTH - step),
    };
    match message {
        Message::Path(m) => m.session = session,
        Message::Resv(m) => m.session = session,
        Message::PathErr(m) => m.session = session,
        Message::ResvErr(m) => m.session = session,
        Message::PathTear(m) => m.session = session,
        Message::ResvTear(m) => m.session = session,
        Message::ResvConf(m) => m.session = session,
    }
}

// The length and the checksum of what was written.
fn check(bytes: &[u8]) -> u64 {
    let mut sum = bytes.len() as u64;
    for byte in bytes.iter().skip(2).take(2) {
        sum = sum.wrapping_mul(256).wrapping_add(u64::from(*byte));
    }
    sum
}

// ---- a sum over all that a message says, so that no part of it is left unread

fn weight(message: &Message) -> u64 {
    match message {
        Message::Path(m) => path(m),
        Message::Resv(m) => resv(m),
        Message::PathErr(m) => path_err(m),
        Message::ResvErr(m) => resv_err(m),
        Message::PathTear(m) => path_tear(m),
        Message::ResvTear(m) => resv_tear(m),
        Message::ResvConf(m) => resv_conf(m),
    }
}

fn path(m: &PathMsg) -> u64 {
    let sender = match m.sender {
        Some((sender, flow)) => whole(&[of_sender(sender), of_flow(&flow)]),
        None => 0,
    };
    whole(&[
        of_session(m.session),
        u64::from(m.police),
        of_hop(m.hop),
        u64::from(m.period),
        sender,
        of_adspec(&m.adspec),
    ])
}

fn resv(m: &ResvMsg) -> u64 {
    whole(&[
        of_session(m.session),
        of_hop(m.hop),
        u64::from(m.period),
        of_addr(m.confirm),
        of_ask(&m.ask),
    ])
}

fn path_err(m: &PathErrMsg) -> u64 {
    whole(&[
        of_session(m.session),
        of_error(m.err),
        of_template(m.sender),
    ])
}

fn resv_err(m: &ResvErrMsg) -> u64 {
    whole(&[
        of_session(m.session),
        of_hop(m.hop),
        of_error(m.err),
        of_blame(&m.blame),
    ])
}

fn path_tear(m: &PathTearMsg) -> u64 {
    whole(&[of_session(m.session), of_hop(m.hop), of_template(m.sender)])
}

fn resv_tear(m: &ResvTearMsg) -> u64 {
    let tear = match &m.tear {
        Tear::Wild { scope } => of_some(scope),
        Tear::Fixed(senders) | Tear::Shared(senders) => of_senders(senders),
    };
    whole(&[of_session(m.session), of_hop(m.hop), tear])
}

fn resv_conf(m: &ResvConfMsg) -> u64 {
    whole(&[
        of_session(m.session),
        of_error(m.err),
        u64::from(m.confirm.0),
        of_ask(&m.ask),
    ])
}

fn of_ask(ask: &Ask) -> u64 {
    match ask {
        Ask::Wild { scope, flow } => whole(&[of_some(scope), of_flow(flow)]),
        Ask::Fixed(list) => {
            let mut sum = 0u64;
            for (sender, flow) in list.as_slice() {
                sum = whole(&[sum, of_sender(*sender), of_flow(flow)]);
            }
            sum
        }
        Ask::Shared(part) => whole(&[of_senders(&part.senders), of_flow(&part.flow)]),
    }
}

fn of_blame(blame: &Blame) -> u64 {
    let flow = match &blame.flow {
        Some(flow) => of_flow(flow),
        None => 0,
    };
    whole(&[of_some(&blame.senders), flow])
}

fn of_adspec(adspec: &Option<Adspec>) -> u64 {
    let Some(adspec) = adspec else {
        return 0;
    };
    let mut sum = whole(&[
        u64::from(adspec.broken),
        u64::from(adspec.hops),
        of_peak(adspec.rate),
        u64::from(adspec.latency),
        u64::from(adspec.mtu),
    ]);
    for word in adspec.others.words() {
        sum = sum.wrapping_add(u64::from(*word));
    }
    sum
}

fn of_some(senders: &Option<Senders>) -> u64 {
    match senders {
        Some(senders) => of_senders(senders),
        None => 0,
    }
}

fn of_senders(senders: &Senders) -> u64 {
    let mut sum = 0u64;
    for sender in senders.as_slice() {
        sum = sum.wrapping_add(of_sender(*sender));
    }
    sum
}

fn of_template(sender: Option<Sender>) -> u64 {
    match sender {
        Some(sender) => of_sender(sender),
        None => 0,
    }
}

fn of_addr(addr: Option<Addr>) -> u64 {
    match addr {
        Some(addr) => u64::from(addr.0),
        None => 0,
    }
}

fn of_session(session: Session) -> u64 {
    whole(&[
        u64::from(session.group.0),
        u64::from(session.proto),
        u64::from(session.port),
    ])
}

fn of_hop(hop: Hop) -> u64 {
    whole(&[u64::from(hop.addr.0), u64::from(hop.handle)])
}

fn of_error(err: ErrSpec) -> u64 {
    whole(&[
        u64::from(err.node.0),
        u64::from(err.in_place),
        u64::from(err.not_guilty),
        u64::from(err.code),
        u64::from(err.value),
    ])
}

fn of_sender(sender: Sender) -> u64 {
    whole(&[u64::from(sender.addr.0), u64::from(sender.port)])
}

fn of_flow(flow: &Flow) -> u64 {
    whole(&[
        flow.r.value(),
        flow.b.value(),
        of_peak(flow.p),
        u64::from(flow.low),
        u64::from(flow.most),
    ])
}

fn of_peak(peak: Peak) -> u64 {
    match peak {
        Peak::Finite(rate) => rate.value(),
        Peak::Infinite => 1,
    }
}

// The sum of these numbers.
fn whole(parts: &[u64]) -> u64 {
    let mut sum = 0u64;
    for part in parts {
        sum = sum.wrapping_add(*part);
    }
    sum
}
