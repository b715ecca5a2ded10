//! Where objects may stand in messages.
ghost use Rattle.std.specs.Prelude.{◌≡◌};
ghost use Rattle.message_codec.specs.Table.{role_of};
ghost use Rattle.message_codec.specs.Places.{has_no_filter, list_place, error_place, tear_place, place_after_style, has_place, stood, is_repeated};

use crate::role::Role;
use crate::seen::Seen;
use crate::table::is_anywhere;
use rsvp_base::StyleKind;
use rsvp_messages::Kind;
use rsvp_objects::Class;

/// Whether an object of this class, of this role in the kind, may stand behind those that were seen.
#[tactic(auto, unfolding(crate::specs::Places::has_place))]
#[inline(always)]
pub fn has_place(role: Role, kind: Kind, seen: &Seen, class: Class) -> bool
    requires role { role ≡ role_of kind class.0 }
    ensures { result ≡ has_place kind seen.now class.0 }
{
    if is_anywhere(class) {
        return true;
    }
    if class == Class::INTEGRITY {
        return !seen.begun;
    }
    match seen.style {
        None => !matches!(role, Role::Nowhere),
        Some(style) => place_after_style(kind, style, seen, class),
    }
}

// Whether the list of the message's kind and style has a place for this class.
#[inline(always)]
fn place_after_style(kind: Kind, style: StyleKind, seen: &Seen, class: Class) -> bool
    ensures { result ≡ place_after_style kind style seen.now class.0 }
{
    match kind {
        Kind::Resv | Kind::ResvConf => list_place(style, seen, class),
        Kind::ResvErr => error_place(style, seen, class),
        Kind::ResvTear => tear_place(style, class),
        Kind::Path | Kind::PathErr | Kind::PathTear => false,
    }
}

// The flow descriptors of a Resv or a ResvConf (RFC 2205, 3.1.4).
#[inline(always)]
fn list_place(style: StyleKind, seen: &Seen, class: Class) -> bool
    ensures { result ≡ list_place style seen.now class.0 }
{
    match style {
        StyleKind::Wild => class == Class::FLOWSPEC && seen.flow.is_none(),
        StyleKind::Fixed => {
            (class == Class::FLOWSPEC && !seen.due)
                || (class == Class::FILTER_SPEC && seen.flow.is_some())
        }
        StyleKind::Shared => {
            (class == Class::FLOWSPEC && seen.flow.is_none())
                || (class == Class::FILTER_SPEC && seen.flow.is_some())
        }
    }
}

// The error flow descriptor of a ResvErr (RFC 2205, 3.1.8).
#[inline(always)]
fn error_place(style: StyleKind, seen: &Seen, class: Class) -> bool
    ensures { result ≡ error_place style seen.now class.0 }
{
    match style {
        StyleKind::Wild => class == Class::FLOWSPEC && seen.flow.is_none(),
        StyleKind::Fixed => {
            (class == Class::FLOWSPEC && seen.flow.is_none())
                || (class == Class::FILTER_SPEC && seen.flow.is_some() && has_no_filter(seen))
        }
        StyleKind::Shared => {
            (class == Class::FLOWSPEC && seen.flow.is_none())
                || (class == Class::FILTER_SPEC && seen.flow.is_some())
        }
    }
}

fn has_no_filter(seen: &Seen) -> bool
    ensures { result ≡ has_no_filter seen.now }
{
    seen.filters.as_slice().is_empty()
}

// The filters of a ResvTear (RFC 2205, 3.1.6).
#[inline(always)]
fn tear_place(style: StyleKind, class: Class) -> bool
    ensures { result ≡ tear_place style class.0 }
{
    match style {
        StyleKind::Wild => class == Class::FLOWSPEC,
        StyleKind::Fixed | StyleKind::Shared => {
            class == Class::FLOWSPEC || class == Class::FILTER_SPEC
        }
    }
}

/// Whether an object of this class, which stands once, stood before.
#[tactic(auto, unfolding(crate::specs::Places::is_repeated))]
#[inline(always)]
pub fn is_repeated(role: Role, kind: Kind, seen: &Seen, class: Class) -> bool
    requires role { role ≡ role_of kind class.0 }
    ensures { result ≡ is_repeated kind seen.now class.0 }
{
    match role {
        Role::Needed | Role::Once => stood(seen, class),
        Role::Unread | Role::Nowhere => false,
    }
}

#[tactic(auto, unfolding(crate::specs::Places::stood))]
#[inline(always)]
fn stood(seen: &Seen, class: Class) -> bool
    ensures { result ≡ stood seen.now class.0 }
{
    match class {
        Class::SESSION => seen.session.is_some(),
        Class::RSVP_HOP => seen.hop.is_some(),
        Class::TIME_VALUES => seen.period.is_some(),
        Class::ERROR_SPEC => seen.error.is_some(),
        Class::SCOPE => seen.scope.is_some(),
        Class::STYLE => seen.style.is_some(),
        Class::SENDER_TEMPLATE => seen.template.is_some(),
        Class::SENDER_TSPEC => seen.tspec.is_some(),
        Class::ADSPEC => seen.adspec,
        _ => seen.confirm.is_some(),
    }
}
