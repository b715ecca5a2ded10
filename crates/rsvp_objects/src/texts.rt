//! The bytes of objects of fixed size.
ghost use Rattle.std.specs.Prelude.{◌≡◌, ◌≤◌, ◌+◌, ◌++◌, ◌∷◌, [], length, drop};
ghost use Rattle.rsvp_objects.specs.declared.read_class.ReadClass.TheVariants as ReadClass;
ghost use Rattle.rsvp_objects.specs.Classes.{class_number, ctype_of};
ghost use Rattle.rsvp_objects.specs.Fields.{half, spelt};
ghost use Rattle.rsvp_objects.specs.Contents.{session_bytes, hop_bytes, period_bytes, error_bytes, style_number, style_bytes, sender_bytes, confirm_bytes};
ghost use Rattle.rsvp_objects.specs.FlowWords.{flow_bytes};
ghost use Rattle.rsvp_objects.specs.Spelling.{spelt_as};

use crate::flags::{error_flags, session_flags};
use crate::rate_word::word_of_rate;
use crate::read_class::ReadClass;
use crate::{places, values};
use byteorder::{BigEndian, ByteOrder};
use rsvp_base::{Addr, ErrSpec, Flow, Hop, Peak, Sender, Session, StyleKind};

/// Writes the head of an object of the class, whose text has this many bytes, over the first four.
#[inline(always)]
pub fn put_head(text: &mut [u8], class: ReadClass, size: u16)
    requires { 4 ≤ length text.old }
    ensures { text.new ≡ half size ++ class_number class ∷ ctype_of class ∷ drop 4 text.old }
{
    BigEndian::write_u16(text, size);
    text[places::object::CLASS] = class.number();
    text[places::object::CTYPE] = class.ctype();
}

/// An object that is skipped: a head alone.
#[inline(always)]
pub fn skipped(class: u8) -> [u8; 4]
    ensures { result ≡ spelt class 0 [] }
{
    let mut text = [0; 4];
    BigEndian::write_u16(&mut text, 4);
    text[places::object::CLASS] = class;
    text
}

/// SESSION.
#[inline(always)]
pub fn session(session: &Session, police: bool) -> [u8; 12]
    ensures { result ≡ spelt_as ReadClass.Session (session_bytes session.now police) }
{
    let mut text = [0; 12];
    put_head(&mut text, ReadClass::Session, 12);
    let body = &mut text[places::object::CONTENTS..];
    BigEndian::write_u32(&mut body[places::session::GROUP..], session.group.0);
    body[places::session::PROTO] = session.proto;
    body[places::session::FLAGS] = session_flags(police);
    BigEndian::write_u16(&mut body[places::session::PORT..], session.port);
    text
}

/// RSVP_HOP.
#[inline(always)]
pub fn hop(hop: Hop) -> [u8; 12]
    ensures { result ≡ spelt_as ReadClass.RsvpHop (hop_bytes hop) }
{
    let mut text = [0; 12];
    put_head(&mut text, ReadClass::RsvpHop, 12);
    let body = &mut text[places::object::CONTENTS..];
    BigEndian::write_u32(&mut body[places::hop::ADDR..], hop.addr.0);
    BigEndian::write_u32(&mut body[places::hop::HANDLE..], hop.handle);
    text
}

/// TIME_VALUES, of a refresh period in milliseconds.
#[inline(always)]
pub fn time(period: u32) -> [u8; 8]
    ensures { result ≡ spelt_as ReadClass.TimeValues (period_bytes period) }
{
    let mut text = [0; 8];
    put_head(&mut text, ReadClass::TimeValues, 8);
    BigEndian::write_u32(
        &mut text[places::object::CONTENTS + places::time_values::PERIOD..],
        period,
    );
    text
}

/// ERROR_SPEC.
#[inline(always)]
pub fn error(error: &ErrSpec) -> [u8; 12]
    ensures { result ≡ spelt_as ReadClass.ErrorSpec (error_bytes error.now) }
{
    let mut text = [0; 12];
    put_head(&mut text, ReadClass::ErrorSpec, 12);
    let body = &mut text[places::object::CONTENTS..];
    BigEndian::write_u32(&mut body[places::error_spec::NODE..], error.node.0);
    body[places::error_spec::FLAGS] = error_flags(error.in_place, error.not_guilty);
    body[places::error_spec::CODE] = error.code;
    BigEndian::write_u16(&mut body[places::error_spec::VALUE..], error.value);
    text
}

/// STYLE.
#[inline(always)]
pub fn style(kind: StyleKind) -> [u8; 8]
    ensures { result ≡ spelt_as ReadClass.Style (style_bytes kind) }
{
    let mut text = [0; 8];
    put_head(&mut text, ReadClass::Style, 8);
    text[places::object::CONTENTS + places::style::OPTIONS] = style_number(kind);
    text
}

#[inline(always)]
fn style_number(kind: StyleKind) -> u8
    ensures { result ≡ style_number kind }
{
    match kind {
        StyleKind::Wild => values::style::WILDCARD,
        StyleKind::Fixed => values::style::FIXED,
        StyleKind::Shared => values::style::SHARED_EXPLICIT,
    }
}

/// FILTER_SPEC or SENDER_TEMPLATE.
#[inline(always)]
pub fn sender(class: ReadClass, sender: Sender) -> [u8; 12]
    ensures { result ≡ spelt (class_number class) (ctype_of class) (sender_bytes sender) }
{
    let mut text = [0; 12];
    put_head(&mut text, class, 12);
    let body = &mut text[places::object::CONTENTS..];
    BigEndian::write_u32(&mut body[places::sender::ADDR..], sender.addr.0);
    BigEndian::write_u16(&mut body[places::sender::PORT..], sender.port);
    text
}

/// RESV_CONFIRM.
#[inline(always)]
pub fn confirm(receiver: Addr) -> [u8; 8]
    ensures { result ≡ spelt_as ReadClass.ResvConfirm (confirm_bytes receiver) }
{
    let mut text = [0; 8];
    put_head(&mut text, ReadClass::ResvConfirm, 8);
    BigEndian::write_u32(
        &mut text[places::object::CONTENTS + places::resv_confirm::RECEIVER..],
        receiver.0,
    );
    text
}

/// FLOWSPEC or SENDER_TSPEC, with its service.
#[inline(always)]
pub fn flow(class: ReadClass, service: u8, flow: &Flow) -> [u8; 36]
    ensures { result ≡ spelt (class_number class) (ctype_of class) (flow_bytes service flow.now) }
{
    let mut text = [0; 36];
    put_head(&mut text, class, 36);
    let body = &mut text[places::object::CONTENTS..];
    BigEndian::write_u16(
        &mut body[places::flow::WORDS_BEHIND_VERSION..],
        values::flow::BEHIND_VERSION,
    );
    body[places::flow::SERVICE] = service;
    BigEndian::write_u16(
        &mut body[places::flow::WORDS_BEHIND_SERVICE..],
        values::flow::BEHIND_SERVICE,
    );
    body[places::flow::PARAMETER] = values::flow::TOKEN_BUCKET;
    BigEndian::write_u16(
        &mut body[places::flow::WORDS_BEHIND_PARAMETER..],
        values::flow::BEHIND_PARAMETER,
    );
    BigEndian::write_u32(
        &mut body[places::flow::R..],
        word_of_rate(Peak::Finite(flow.r)),
    );
    BigEndian::write_u32(
        &mut body[places::flow::B..],
        word_of_rate(Peak::Finite(flow.b)),
    );
    BigEndian::write_u32(&mut body[places::flow::P..], word_of_rate(flow.p));
    BigEndian::write_u32(&mut body[places::flow::LOW..], flow.low);
    BigEndian::write_u32(&mut body[places::flow::MOST..], flow.most);
    text
}
