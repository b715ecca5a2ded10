//! Reading an object of each class from its contents, for callers that know its class.
ghost use Rattle.std.specs.Prelude.{◌≡◌};
ghost use Rattle.rsvp_objects.specs.Classes as number;
ghost use Rattle.rsvp_objects.specs.declared.object.Object.TheVariants as AnObject;
ghost use Rattle.rsvp_objects.specs.Reading.{as_object, as_session, advert_in, body_of};

use crate::adspec::Adspec;
use crate::adspec_reading::read_adspec;
use crate::class::Class;
use crate::fields::{addr_at, word_at};
use crate::flow_reading::flow;
use crate::obj_err::ObjErr;
use crate::read_class::ReadClass;
use crate::reading::has_size;
use crate::values::{ctype as types, service};
use crate::{contents, flags, places};
use rsvp_base::{Addr, ErrSpec, Flow, Hop, Sender, Senders, Session, StyleKind};

/// What a SESSION says, and whether it has E_Police. Else its fault; `at` is its place.
#[tactic(auto, unfolding(crate::specs::Reading::body_of, crate::specs::Reading::contents_of, crate::specs::Classes::class_with))]
#[inline(always)]
pub fn session(at: u16, ctype: u8, body: &[u8]) -> Result<(Session, bool), ObjErr>
    ensures { as_session result ≡ body_of at number.session ctype body.now }
{
    if ctype != ReadClass::Session.ctype() {
        return Err(ObjErr::CType(at, Class::SESSION.0, ctype));
    }
    if !has_size(ReadClass::Session.size(), body) {
        return Err(ObjErr::Contents(at));
    }
    let police = flags::is_police(body[places::session::FLAGS]);
    Ok((contents::session(body), police))
}

/// What an RSVP_HOP says. Else its fault; `at` is its place.
#[tactic(auto, unfolding(crate::specs::Reading::body_of, crate::specs::Reading::contents_of, crate::specs::Classes::class_with))]
#[inline(always)]
pub fn hop(at: u16, ctype: u8, body: &[u8]) -> Result<Hop, ObjErr>
    ensures { as_object AnObject.HopOf result ≡ body_of at number.rsvp_hop ctype body.now }
{
    if ctype != ReadClass::RsvpHop.ctype() {
        return Err(ObjErr::CType(at, Class::RSVP_HOP.0, ctype));
    }
    if !has_size(ReadClass::RsvpHop.size(), body) {
        return Err(ObjErr::Contents(at));
    }
    Ok(contents::hop(body))
}

/// What a TIME_VALUES says. Else its fault; `at` is its place.
#[tactic(auto, unfolding(crate::specs::Reading::body_of, crate::specs::Reading::contents_of, crate::specs::Classes::class_with))]
#[inline(always)]
pub fn time(at: u16, ctype: u8, body: &[u8]) -> Result<u32, ObjErr>
    ensures { as_object AnObject.Time result ≡ body_of at number.time_values ctype body.now }
{
    if ctype != ReadClass::TimeValues.ctype() {
        return Err(ObjErr::CType(at, Class::TIME_VALUES.0, ctype));
    }
    if !has_size(ReadClass::TimeValues.size(), body) {
        return Err(ObjErr::Contents(at));
    }
    Ok(word_at(body, places::time_values::PERIOD))
}

/// What an ERROR_SPEC says. Else its fault; `at` is its place.
#[tactic(auto, unfolding(crate::specs::Reading::body_of, crate::specs::Reading::contents_of, crate::specs::Classes::class_with))]
#[inline(always)]
pub fn error(at: u16, ctype: u8, body: &[u8]) -> Result<ErrSpec, ObjErr>
    ensures { as_object AnObject.Error result ≡ body_of at number.error_spec ctype body.now }
{
    if ctype != ReadClass::ErrorSpec.ctype() {
        return Err(ObjErr::CType(at, Class::ERROR_SPEC.0, ctype));
    }
    if !has_size(ReadClass::ErrorSpec.size(), body) {
        return Err(ObjErr::Contents(at));
    }
    Ok(contents::error(body))
}

/// What a SCOPE says. Else its fault; `at` is its place.
#[tactic(auto, unfolding(crate::specs::Reading::body_of, crate::specs::Reading::contents_of, crate::specs::Classes::class_with))]
#[inline(always)]
pub fn scope(at: u16, ctype: u8, body: &[u8]) -> Result<Senders, ObjErr>
    ensures { as_object AnObject.Scope result ≡ body_of at number.scope ctype body.now }
{
    if ctype != ReadClass::Scope.ctype() {
        return Err(ObjErr::CType(at, Class::SCOPE.0, ctype));
    }
    if !has_size(ReadClass::Scope.size(), body) {
        return Err(ObjErr::Contents(at));
    }
    contents::scope(body).ok_or(ObjErr::Crowd(at))
}

/// What a STYLE says. Else its fault; `at` is its place.
#[tactic(auto, unfolding(crate::specs::Reading::body_of, crate::specs::Reading::contents_of, crate::specs::Classes::class_with))]
#[inline(always)]
pub fn style(at: u16, ctype: u8, body: &[u8]) -> Result<StyleKind, ObjErr>
    ensures { as_object AnObject.StyleOf result ≡ body_of at number.style ctype body.now }
{
    if ctype != ReadClass::Style.ctype() {
        return Err(ObjErr::CType(at, Class::STYLE.0, ctype));
    }
    if !has_size(ReadClass::Style.size(), body) {
        return Err(ObjErr::Contents(at));
    }
    contents::style(body).ok_or(ObjErr::Style(at))
}

/// What a FLOWSPEC says. Else its fault; `at` is its place.
#[tactic(auto, unfolding(crate::specs::Reading::body_of, crate::specs::Reading::contents_of, crate::specs::Classes::class_with))]
#[inline(always)]
pub fn flow_spec(at: u16, ctype: u8, body: &[u8]) -> Result<Flow, ObjErr>
    ensures { as_object AnObject.FlowOf result ≡ body_of at number.flowspec ctype body.now }
{
    if ctype != ReadClass::FlowSpec.ctype() {
        return Err(ObjErr::CType(at, Class::FLOWSPEC.0, ctype));
    }
    if !has_size(ReadClass::FlowSpec.size(), body) {
        return Err(ObjErr::Contents(at));
    }
    contents::flow_spec(at, body)
}

/// What a FILTER_SPEC says. Else its fault; `at` is its place.
#[tactic(auto, unfolding(crate::specs::Reading::body_of, crate::specs::Reading::contents_of, crate::specs::Classes::class_with))]
#[inline(always)]
pub fn filter(at: u16, ctype: u8, body: &[u8]) -> Result<Sender, ObjErr>
    ensures { as_object AnObject.Filter result ≡ body_of at number.filter_spec ctype body.now }
{
    if ctype != ReadClass::FilterSpec.ctype() {
        return Err(ObjErr::CType(at, Class::FILTER_SPEC.0, ctype));
    }
    if !has_size(ReadClass::FilterSpec.size(), body) {
        return Err(ObjErr::Contents(at));
    }
    Ok(contents::sender(body))
}

/// What a SENDER_TEMPLATE says. Else its fault; `at` is its place.
#[tactic(auto, unfolding(crate::specs::Reading::body_of, crate::specs::Reading::contents_of, crate::specs::Classes::class_with))]
#[inline(always)]
pub fn template(at: u16, ctype: u8, body: &[u8]) -> Result<Sender, ObjErr>
    ensures { as_object AnObject.Template result ≡ body_of at number.sender_template ctype body.now }
{
    if ctype != ReadClass::SenderTemplate.ctype() {
        return Err(ObjErr::CType(at, Class::SENDER_TEMPLATE.0, ctype));
    }
    if !has_size(ReadClass::SenderTemplate.size(), body) {
        return Err(ObjErr::Contents(at));
    }
    Ok(contents::sender(body))
}

/// What a SENDER_TSPEC says. Else its fault; `at` is its place.
#[tactic(auto, unfolding(crate::specs::Reading::body_of, crate::specs::Reading::contents_of, crate::specs::Classes::class_with))]
#[inline(always)]
pub fn tspec(at: u16, ctype: u8, body: &[u8]) -> Result<Flow, ObjErr>
    ensures { as_object AnObject.Tspec result ≡ body_of at number.sender_tspec ctype body.now }
{
    if ctype != ReadClass::SenderTspec.ctype() {
        return Err(ObjErr::CType(at, Class::SENDER_TSPEC.0, ctype));
    }
    if !has_size(ReadClass::SenderTspec.size(), body) {
        return Err(ObjErr::Contents(at));
    }
    flow(body, service::GENERAL).ok_or(ObjErr::Tspec(at))
}

/// What a RESV_CONFIRM says. Else its fault; `at` is its place.
#[tactic(auto, unfolding(crate::specs::Reading::body_of, crate::specs::Reading::contents_of, crate::specs::Classes::class_with))]
#[inline(always)]
pub fn confirm(at: u16, ctype: u8, body: &[u8]) -> Result<Addr, ObjErr>
    ensures { as_object AnObject.Confirm result ≡ body_of at number.resv_confirm ctype body.now }
{
    if ctype != ReadClass::ResvConfirm.ctype() {
        return Err(ObjErr::CType(at, Class::RESV_CONFIRM.0, ctype));
    }
    if !has_size(ReadClass::ResvConfirm.size(), body) {
        return Err(ObjErr::Contents(at));
    }
    Ok(addr_at(body, places::resv_confirm::RECEIVER))
}

/// What an ADSPEC says. `None` where its contents are not of their form: it is skipped then.
#[tactic(auto, unfolding(crate::specs::Reading::advert_in))]
pub fn adspec(ctype: u8, body: &[u8]) -> Option<Adspec>
    ensures { result ≡ advert_in number.adspec ctype body.now }
{
    if ctype == types::INTSERV {
        read_adspec(body)
    } else {
        None
    }
}
