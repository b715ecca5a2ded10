//! Why no sender meets a want.
ghost use Rattle.std.specs.Prelude.{◌≡◌};
ghost use Rattle.std.specs.List.{list_any};
ghost use Rattle.network_demand.specs.Asked.{locals_of};
ghost use Rattle.network_demand.specs.Strays.{is_for, names, sends_in, why_stray};

use crate::locals::Locals;
use rsvp_base::StyleKind;
use tree_model::{LocalSender, LocalWant};

/// Why no sender meets a want that asks nowhere.
#[derive(Clone, Copy, Debug, PartialEq, Eq)]
pub enum Why {
    /// Nobody sends in its session.
    NobodySends,
    /// It names none of those who send in its session.
    NoSuchSender,
    /// No tree of a sender that it is for comes into its node.
    NoTree,
}

/// Why no sender meets a want, if it asks nowhere.
pub fn why_stray(locals: &Locals, want: &LocalWant) -> Why
    ensures { result ≡ why_stray (locals_of locals.now) want.now }
{
    if !has_sender(locals.senders.as_slice(), want) {
        return Why::NobodySends;
    }
    if !has_named(locals.senders.as_slice(), want) {
        return Why::NoSuchSender;
    }
    Why::NoTree
}

// Whether someone sends in the session of a want.
fn has_sender(senders: &[LocalSender], want: &LocalWant) -> bool
    ensures { result ≡ list_any (sends_in want.now) senders.now }
{
    for sender in senders {
        if sends_in(want, sender) {
            return true;
        }
    }
    false
}

// Whether someone sends whom a want is for.
fn has_named(senders: &[LocalSender], want: &LocalWant) -> bool
    ensures { result ≡ list_any (is_for want.now) senders.now }
{
    for sender in senders {
        if is_for(want, sender) {
            return true;
        }
    }
    false
}

// Whether a sender sends in the session of a want.
fn sends_in(want: &LocalWant, sender: &LocalSender) -> bool
    ensures { result ≡ sends_in want.now sender.now }
{
    want.session == sender.session
}

// Whether a want is for a sender: it is of its session, and names it or is a wildcard one.
fn is_for(want: &LocalWant, sender: &LocalSender) -> bool
    ensures { result ≡ is_for want.now sender.now }
{
    sends_in(want, sender) && names(want, sender)
}

// Whether a want names a sender, or is a wildcard one.
fn names(want: &LocalWant, sender: &LocalSender) -> bool
    ensures { result ≡ names want.now sender.now }
{
    match want.style {
        StyleKind::Wild => true,
        StyleKind::Fixed => want.part.senders.has(sender.sender),
        StyleKind::Shared => want.part.senders.has(sender.sender),
    }
}
