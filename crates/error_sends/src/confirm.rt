//! Confirmations go on.
ghost use Rattle.std.specs.Prelude.{◌≡◌};
ghost use Rattle.std.specs.List.{list_any};
ghost use Rattle.rsvp_base.specs.Table.{has, keys};
ghost use Rattle.router_rules.specs.Confirming.{is_wish};
ghost use Rattle.error_sends.specs.Passing.{is_confirmed};

use rsvp_base::{Addr, Flow, Part, Sender, Senders, StyleKind};
use rsvp_messages::{Ask, FixedList};

/// Whether a ResvConf with this address, none of the node's own, and this ask goes on to the next hop of a reservation of its
/// session with this part, kept address and style (RFC 2205, 2.6 and 3.1.9): it is of the style, the address was kept, and it
/// speaks of one of the part's senders; a wildcard one of all.
pub fn confirms(part: &Part, kept: Option<Addr>, style: StyleKind, confirm: Addr, ask: &Ask) -> bool
    ensures { result ≡ is_confirmed part.now kept style confirm ask.now }
{
    if !is_wish(kept, confirm) {
        return false;
    }
    match ask {
        Ask::Wild { .. } => style == StyleKind::Wild,
        Ask::Fixed(list) => style == StyleKind::Fixed && lists_one(list, &part.senders),
        Ask::Shared(shared) => {
            style == StyleKind::Shared && has_one(shared.senders.as_slice(), &part.senders)
        }
    }
}

// Whether the address is the one that was kept.
fn is_wish(kept: Option<Addr>, confirm: Addr) -> bool
    ensures { result ≡ is_wish kept confirm }
{
    match kept {
        Some(addr) => confirm == addr,
        None => false,
    }
}

// Whether a list has one of the senders.
fn lists_one(list: &FixedList, senders: &Senders) -> bool
    ensures { result ≡ list_any (has senders.now) (keys list.now) }
{
    any_listed(list.as_slice(), senders)
}

// Whether one of these rows has one of the senders.
fn any_listed(rows: &[(Sender, Flow)], senders: &Senders) -> bool
    ensures { result ≡ list_any (λ e. has senders.now e.0) rows.now }
{
    rows.iter().any(|row| senders.has(row.0))
}

// Whether one of these is one of the senders.
fn has_one(names: &[Sender], senders: &Senders) -> bool
    ensures { result ≡ list_any (has senders.now) names.now }
{
    names.iter().any(|name| senders.has(*name))
}
