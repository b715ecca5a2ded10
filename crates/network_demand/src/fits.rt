//! Whether demands fit.
ghost use Rattle.std.specs.Prelude.{◌≡◌, ◌↔◌, ◌≤◌, ◌<◌, ◌+◌, ◌⊎◌, ℕ, true, false, length, sum_by, IfOk, IsTrue};
ghost use Rattle.std.specs.List.{All};
ghost use Rattle.rsvp_base.specs.Members.{In};
ghost use Rattle.style_rules.specs.Parts.{part_charge};
ghost use Rattle.tree_model.specs.Networks.{node_of};
ghost use Rattle.tree_model.specs.declared.locals.LocalWant.{LocalWant};
ghost use Rattle.network_demand.specs.declared.hop_want.HopWant.{HopWant};
ghost use Rattle.network_demand.specs.Fits.{taken_at, room_at, AreCarried, first_style, IsOfOneStyle};

use crate::end_book::EndBook;
use crate::hop_want::HopWant;
use crate::locals::{is_session, is_style};
use crate::room::{rooms, take_all};
use rsvp_base::{NoMemory, Session, StyleKind};
use std::alloc::Global;
use tree_model::LocalWant;
use tree_routing::{End, Routing};

/// Whether what is wanted of a session finds room, where the sessions before it did: 64 next hops at each node, and as many
/// lines as these left. `NoMemory`: there was no room to count.
pub(crate) fn find_room(
    alloc: Global,
    routing: &Routing,
    lines: &mut Vec<usize>,
    wants: &[HopWant],
    before: bool,
) -> Result<bool, NoMemory>
    requires size { length lines.old.items ≡ routing.now.nodes }
    requires inside { (w : HopWant) → In w wants.now → node_of routing.now.ends w.hop.from < routing.now.nodes }
    ensures size { IfOk result (λ fits. length lines.new.items ≡ routing.now.nodes) }
    ensures before { IfOk result (λ fits. IsTrue fits → IsTrue before) }
    ensures next_hops { IfOk result (λ fits. IsTrue fits → (n : ℕ) → taken_at true routing.now n wants.now ≤ 64) }
    ensures lines { IfOk result (λ fits. IsTrue fits → (full n : ℕ) → room_at full lines.new.items n + taken_at false routing.now n wants.now ≡ room_at full lines.old.items n) }
    ensures less { IfOk result (λ fits. fits ≡ false → IsTrue before → (n : ℕ)
        × ((64 < taken_at true routing.now n wants.now) ⊎ ((full : ℕ) → room_at full lines.old.items n < taken_at false routing.now n wants.now))) }
{
    if !before {
        return Ok(false);
    }
    let mut next_hops = rooms(alloc, routing.nodes(), 64)?;
    if !take_all(routing, &mut next_hops, wants, true) {
        return Ok(false);
    }
    Ok(take_all(routing, lines, wants, false))
}

/// Whether there is room at the nodes, each session is wanted in one style, and each end can carry what it owes. These are
/// the sessions that are wanted.
pub(crate) fn are_met(
    room: bool,
    wants: &[LocalWant],
    sessions: &[Session],
    books: &[EndBook],
    ends: &[End],
) -> bool
    requires ends { length books.now ≡ length ends.now }
    requires sessions { (w : LocalWant) → In w wants.now → In w.session sessions.now }
    ensures { IsTrue result ↔ (IsTrue room × (All (λ w. first_style w.session w.style wants.now ≡ w.style) wants.now × AreCarried books.now ends.now)) }
{
    room && are_of_one_style(wants, sessions) && are_carried(books, ends)
}

// The style of the first want of a session; this one, if there is none.
fn first_style(wants: &[LocalWant], session: Session, style: StyleKind) -> StyleKind
    ensures { result ≡ first_style session style wants.now }
{
    for want in wants {
        if is_session(session, want.session) {
            return want.style;
        }
    }
    style
}

// Whether a want has this style, if it is of this session.
fn has_style(want: &LocalWant, session: Session, style: StyleKind) -> bool
    ensures { IsTrue result ↔ (want.now.session ≡ session → want.now.style ≡ style) }
{
    !is_session(session, want.session) || is_style(style, want.style)
}

// Whether all wants of a session have the style of its first.
fn is_of_one_style(wants: &[LocalWant], session: Session) -> bool
    ensures { IsTrue result ↔ IsOfOneStyle wants.now session }
{
    let first = first_style(wants, session, StyleKind::Wild);
    for want in wants {
        if !has_style(want, session, first) {
            return false;
        }
    }
    true
}

// Whether all wants of a session have one style. These are the sessions.
fn are_of_one_style(wants: &[LocalWant], sessions: &[Session]) -> bool
    requires { (w : LocalWant) → In w wants.now → In w.session sessions.now }
    ensures { IsTrue result ↔ All (λ w. first_style w.session w.style wants.now ≡ w.style) wants.now }
{
    for session in sessions {
        if !is_of_one_style(wants, *session) {
            return false;
        }
    }
    true
}

// Whether each end can carry what it owes.
fn are_carried(books: &[EndBook], ends: &[End]) -> bool
    requires { length books.now ≡ length ends.now }
    ensures { IsTrue result ↔ AreCarried books.now ends.now }
{
    for end in 0..ends.len() {
        if !books[end].is_carried(&ends[end].iface) {
            return false;
        }
    }
    true
}
