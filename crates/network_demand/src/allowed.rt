//! Whether a network can be asked for something.
ghost use Rattle.std.specs.Prelude.{◌≡◌, ◌↔◌, ◌<◌, ◌≤◌, false, [], ◌∷◌, ◌++◌, length, map, IsTrue};
ghost use Rattle.std.specs.List.{All, filter};
ghost use Rattle.rsvp_base.specs.Members.{In};
ghost use Rattle.rsvp_base.specs.Orders.{sessions};
ghost use Rattle.rsvp_base.specs.Sets.{set_of};
ghost use Rattle.rsvp_base.specs.Table.{size};
ghost use Rattle.rsvp_base.specs.declared.session.Session.{Session};
ghost use Rattle.tree_model.specs.Chains.{NoRepeats};
ghost use Rattle.tree_model.specs.Wants.{of_session};
ghost use Rattle.network_demand.specs.Asked.{locals_of};
ghost use Rattle.network_demand.specs.Demands.{AreLocals, few_of};

use crate::locals::{Locals, is_among, is_session};
use arrayvec::ArrayVec;
use rsvp_base::Session;
use tree_model::{LocalSender, LocalWant};
use tree_routing::Routing;

/// Whether a network can be asked for this: each want is at one of its nodes, at most 32 sessions are wanted, and a session
/// has at most 16 senders.
pub fn can_ask(routing: &Routing, locals: &Locals) -> bool
    ensures { IsTrue result ↔ AreLocals routing.now (locals_of locals.now) }
{
    are_inside(locals.wants.as_slice(), routing.nodes()) && are_bounded(locals)
}

// Whether at most 32 sessions are wanted, and no session has more than 16 senders.
fn are_bounded(locals: &Locals) -> bool
    ensures { IsTrue result ↔ ((size (set_of {o = sessions} (map (λ w. w.session) locals.now.wants.items)) ≤ 32) × All (few_of locals.now.senders.items) locals.now.senders.items) }
{
    are_few_sessions(locals.wants.as_slice()) && are_few(locals.senders.as_slice())
}

// Keeps a session, if it is not there. False exactly where it is not, and 32 are.
fn keep(found: &mut ArrayVec<Session, 32>, session: Session) -> bool
    ensures few { length found.new.items ≤ 32 }
    ensures once { NoRepeats found.old.items → NoRepeats found.new.items }
    ensures kept { IsTrue result → (s : Session) → In s found.new.items ↔ In s (found.old.items ++ session ∷ []) }
    ensures full { result ≡ false → (length found.old.items ≡ 32) × (In session found.old.items → ⊥) }
{
    if is_among(found.as_slice(), session) {
        return true;
    }
    if found.is_full() {
        return false;
    }
    found.push(session);
    true
}

// Whether at most 32 sessions are wanted.
fn are_few_sessions(wants: &[LocalWant]) -> bool
    ensures { IsTrue result ↔ (size (set_of {o = sessions} (map (λ w. w.session) wants.now)) ≤ 32) }
{
    let mut found = ArrayVec::new();
    for want in wants {
        if !keep(&mut found, want.session) {
            return false;
        }
    }
    true
}

// Whether each want is at a node below this number.
fn are_inside(wants: &[LocalWant], nodes: u16) -> bool
    ensures { IsTrue result ↔ All (λ w. w.node < nodes) wants.now }
{
    for want in wants {
        if want.node >= nodes {
            return false;
        }
    }
    true
}

// Whether no session has more than 16 senders.
fn are_few(senders: &[LocalSender]) -> bool
    ensures { IsTrue result ↔ All (few_of senders.now) senders.now }
{
    for sender in senders {
        if count(senders, sender.session) > 16 {
            return false;
        }
    }
    true
}

// How many senders a session has.
fn count(senders: &[LocalSender], session: Session) -> usize
    ensures { result ≡ length (filter (of_session session) senders.now) }
{
    let mut count = 0;
    for sender in senders {
        if is_session(session, sender.session) {
            count += 1;
        }
    }
    count
}
