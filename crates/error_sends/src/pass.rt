//! Errors of reservations go on.
ghost use Rattle.std.specs.Prelude.{◌≡◌, cond, Some, None};
ghost use Rattle.rsvp_base.specs.Sets.{is_none};
ghost use Rattle.router_rules.specs.Asking.{Nobody, These};
ghost use Rattle.router_rules.specs.Errors.{blamed};
ghost use Rattle.error_sends.specs.Passing.{is_only_for_blockaded, listing, passed_on};

use rsvp_base::{ErrSpec, Part, Senders, StyleKind};
use rsvp_messages::Blame;

/// What a ResvErr says where it goes on to a reservation of its style (RFC 2205, 3.1.8 and 3.5): the same, of those of the
/// senders that the reservation has; a wildcard error without SCOPE is of all of them. `None` exactly where it does not go
/// on: it names senders and none of these; or a smaller reservation stands, and this one is not blockaded.
pub fn passes_on(
    err: &ErrSpec,
    blame: &Blame,
    style: StyleKind,
    part: &Part,
    blockaded: bool,
) -> Option<Blame>
    ensures { result ≡ passed_on err.now blame.now style part.now blockaded }
{
    if is_only_for_blockaded(err, blame) && !blockaded {
        return None;
    }
    let senders = blamed(style, &blame.senders, &part.senders)?;
    Some(Blame {
        style: blame.style,
        senders,
        flow: blame.flow,
    })
}

// Whether only the blockaded are told: a smaller reservation stands, and a flow was refused.
fn is_only_for_blockaded(err: &ErrSpec, blame: &Blame) -> bool
    ensures { result ≡ is_only_for_blockaded err.now blame.now }
{
    err.in_place && err.code == 1 && blame.flow.is_some()
}

// The senders that are blamed of a reservation's, where the error goes on to it.
fn blamed(style: StyleKind, names: &Option<Senders>, all: &Senders) -> Option<Option<Senders>>
    ensures { result ≡ listing (blamed style names.now all.now) }
{
    match names {
        Some(names) => some_blamed(all.cut(names)),
        None => Some(all_blamed(style, all)),
    }
}

// These, if there are some.
fn some_blamed(names: Senders) -> Option<Option<Senders>>
    ensures { result ≡ listing (cond (is_none names) Nobody (These names)) }
{
    if names.is_empty() {
        return None;
    }
    Some(Some(names))
}

// Those of an error that names none.
fn all_blamed(style: StyleKind, all: &Senders) -> Option<Senders>
    ensures { Some result ≡ listing (blamed style None all.now) }
{
    match style {
        StyleKind::Wild => Some(all.copy()),
        StyleKind::Fixed | StyleKind::Shared => None,
    }
}
