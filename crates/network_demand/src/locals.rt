//! Who sends in a network, and who wants what.
ghost use Rattle.std.specs.Prelude.{◌≡◌, ◌≤◌, ◌↔◌, length, map, IsTrue, IfOk};
ghost use Rattle.std.specs.List.{filter};
ghost use Rattle.std.specs.Ordering.{eq_by_cmp};
ghost use Rattle.rsvp_base.specs.Members.{In};
ghost use Rattle.rsvp_base.specs.Orders.{sessions, styles};
ghost use Rattle.rsvp_base.specs.Sets.{set_of};
ghost use Rattle.rsvp_base.specs.Styles.{name_of};
ghost use Rattle.tree_model.specs.Wants.{of_session, is_wanted_at};

use rsvp_base::{NoMemory, Sender, Senders, Session, StyleKind};
use std::alloc::Global;
use style_rules::Style;
use tree_model::{LocalSender, LocalWant};

/// What the hosts of a network ask of it: who sends, and who wants what.
#[derive(Drop)]
pub struct Locals {
    pub senders: Vec<LocalSender>,
    pub wants: Vec<LocalWant>,
}

/// Whether two sessions are the same.
pub(crate) fn is_session(session: Session, other: Session) -> bool
    ensures { result ≡ eq_by_cmp sessions.cmp session other }
{
    session == other
}

/// Whether two styles are the same.
pub(crate) fn is_style(style: StyleKind, other: StyleKind) -> bool
    ensures { result ≡ eq_by_cmp styles.cmp style other }
{
    style == other
}

/// Whether a session is among these.
pub(crate) fn is_among(sessions: &[Session], session: Session) -> bool
    ensures { IsTrue result ↔ In session sessions.now }
{
    for one in sessions {
        if is_session(session, *one) {
            return true;
        }
    }
    false
}

/// The senders of a session.
pub(crate) fn live(
    alloc: Global,
    senders: &[LocalSender],
    session: Session,
) -> Result<Vec<Sender>, NoMemory>
    ensures { IfOk result (λ all. all.items ≡ map (λ x. x.sender) (filter (of_session session) senders.now)) }
{
    let mut all = Vec::new(alloc);
    for one in senders {
        if is_session(session, one.session) {
            all.push(one.sender)?;
        }
    }
    Ok(all)
}

/// The names of senders, as the style lists them.
pub(crate) fn names_of<S: Style>(senders: &[Sender]) -> Senders
    requires { length senders.now ≤ 16 }
    ensures { result ≡ set_of (map (name_of S.kind_is) senders.now) }
{
    let mut names = Senders::new();
    for sender in senders {
        // There is room: no more are added than there are senders.
        let _ = names.insert(S::name_of(*sender));
    }
    names
}
